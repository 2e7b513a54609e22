// What a case comes to, from what its call gave back and left in the buffers.
ghost use Rattle.std.specs.Prelude.{◌≡◌, ◌≤◌};
ghost use Rattle.stream.specs.declared.Step.TheVariants.{Same};
ghost use Rattle.stream.specs.Expected.{AsExpected};

use crate::block_cases::Wide;
use access::{Afforded, Listed};
use places::Answer;
use stream::{Head, Reply, Step, same_numbers};

// The reply of access by a list, which gives back the words of all its lookups.
pub fn of_list(listed: Listed) -> Reply {
    Reply::with_value(listed.answer(), listed.words())
}

// The reply of access by a list under a budget, which gives back how many lookups are answered, and their words as the
// index.
pub fn of_front(afforded: Afforded) -> Reply {
    Reply::with_value(afforded.answer(), afforded.answered() as u64).with_index(afforded.words())
}

// The reply of the plain engine's single access, which gives back a value, and its count of words as the reference.
pub fn of_plain(answer: Answer, value: u64, words: usize) -> Reply {
    Reply::with_value(answer, value).with_reference(words as u64)
}

// What comes of the case with this head, from what its call gave back and left in the buffers c and d. No call takes d.
pub fn judge(head: Head, reply: Reply, c: &Wide, c_exit: &Wide, d: &Wide, d_exit: &Wide) -> Step
    ensures as_expected { result ≡ Same → AsExpected head reply c.now c_exit.now d.now
        d_exit.now }
    ensures value { head.n_c ≤ 4096 → head.n_d ≤ 4096 → AsExpected head reply c.now c_exit.now
        d.now d_exit.now → result ≡ Same }
{
    let same_c = same_numbers(c, c_exit, head.n_c);
    let same_d = same_numbers(d, d_exit, head.n_d);
    stream::judge(head, reply, same_c & same_d)
}
