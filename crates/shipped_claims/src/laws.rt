//! Laws over every run of the shipped texts, compiled by combined checks, and as they are under epochs.

ghost use Rattle.shipped_claims.specs.NeverFull.{SetsAreNeverFull, QueueIsNeverFull, BareSetsAreNeverFull, BareQueueIsNeverFull};

use bare_targets::laws::bare_texts_are_runnable;
use barrier_compiler::laws::{second_scheme_is_barred, second_scheme_is_within};
use queue_source::laws::queue_is_normal;
use set_source::laws::set_is_normal;
use text_laws::laws::shipped_are_within;

/// Of a set of 1 to 64 buckets, with each setting that fits it: if the slots are at least the initial nodes and the calls of
/// `insert` of all callers together, no caller is told that the pool is full.
pub fn sets_are_never_full()
    ensures { SetsAreNeverFull }
{
    second_scheme_is_barred();
    second_scheme_is_within();
    shipped_are_within();
    set_is_normal();
}

/// Of the queue the same, with its calls of `enqueue`.
pub fn queue_is_never_full()
    ensures { QueueIsNeverFull }
{
    second_scheme_is_barred();
    second_scheme_is_within();
    shipped_are_within();
    queue_is_normal();
}

/// So it is of a set's text as it is, under epochs, with each setting that fits it.
pub fn bare_sets_are_never_full()
    ensures { BareSetsAreNeverFull }
{
    bare_texts_are_runnable();
    shipped_are_within();
    set_is_normal();
}

/// And of the queue's.
pub fn bare_queue_is_never_full()
    ensures { BareQueueIsNeverFull }
{
    bare_texts_are_runnable();
    shipped_are_within();
    queue_is_normal();
}
