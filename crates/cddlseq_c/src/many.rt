//! Many streams, one after the other in a buffer.

ghost use Rattle.std.specs.Prelude.{◌≡◌, ◌+◌, ◌<◌, ◌↔◌, IfNone, IfSome, IsTrue, length, slice_index, slice_range};
ghost use Rattle.seq_run.specs.Judge.{judge_of};
ghost use Rattle.cddlseq_c.specs.Answers.{IsStream, IsToldMany};

use crate::ready::Ready;
use crate::running::end_of;
use crate::told::{BAD_OFFSETS, CddlseqEnd, NO_MEMORY, OK, told_end};
use std::alloc::Global;

// Whether there is an offset for each stream, and one more for the end of the last.
pub(crate) fn fits(offsets: usize, streams: usize) -> bool
    ensures { IsTrue result ↔ (offsets ≡ streams + 1) }
{
    offsets > 0 && offsets - 1 == streams
}

// Writes the ends of the streams, and how many these are.
pub(crate) fn tell_many(
    alloc: Global,
    ready: &Ready,
    bytes: &[u8],
    offsets: &[usize],
    ends: &mut [CddlseqEnd],
    done: &mut usize,
) -> u32
    requires { length offsets.now ≡ length ends.old + 1 }
    ensures { IsToldMany (judge_of ready.now.table ready.now.steps) ready.now.limits bytes.now offsets.now ends.old ends.new done.new result }
{
    *done = 0;
    for (k, told) in ends.iter_mut().enumerate() {
        let Some(stream) = stream_at(bytes, offsets, k) else {
            return BAD_OFFSETS;
        };
        match end_of(alloc, ready, stream) {
            Ok(end) => *told = told_end(&end),
            Err(_) => return NO_MEMORY,
        }
        *done = k + 1;
    }
    OK
}

// The bytes of stream k, if its offsets are right.
fn stream_at<'b>(bytes: &'b [u8], offsets: &[usize], k: usize) -> Option<&'b [u8]>
    requires { k + 1 < length offsets.now }
    ensures stream { IfSome result (λ _. IsStream bytes.now offsets.now k) }
    ensures bytes { IfSome result (λ s. s.now ≡ slice_range bytes.now (slice_index offsets.now k) (slice_index offsets.now (k + 1))) }
    ensures none { IfNone result (¬ (IsStream bytes.now offsets.now k)) }
{
    let from = offsets[k];
    let to = offsets[k + 1];
    if to < from || to > bytes.len() {
        return None;
    }
    Some(&bytes[from..to])
}
