//! What the callers share.

ghost use Rattle.std.specs.Prelude.{◌≡◌, ◌∷◌, ◌++◌, [], drop, IfOk};
ghost use Rattle.histories.specs.Histories.{nothing_shared, has_key, with_key, without_key, number_of, first_value, reply_to, after};

use crate::call::{Action, Answer};
use std::alloc::{AllocError, Global};
use std::marker::Model;

fn has_key(keys: &[u64], key: u64) -> bool
    ensures { result ≡ has_key keys.now key }
{
    keys.iter().any(|it| *it == key)
}

fn with_key(alloc: Global, keys: &[u64], key: u64) -> Result<Vec<u64>, AllocError>
    ensures { IfOk result (λ more. more.items ≡ with_key keys.now key) }
{
    let mut more = Vec::from_slice(alloc, keys)?;
    if !has_key(keys, key) {
        more.push(key)?;
    }
    Ok(more)
}

fn without_key(alloc: Global, keys: &[u64], key: u64) -> Result<Vec<u64>, AllocError>
    ensures { IfOk result (λ rest. rest.items ≡ without_key keys.now key) }
{
    let mut rest = Vec::from_slice(alloc, keys)?;
    rest.retain(|it| *it != key);
    Ok(rest)
}

fn with_value(alloc: Global, values: &[u64], value: u64) -> Result<Vec<u64>, AllocError>
    ensures { IfOk result (λ more. more.items ≡ values.now ++ value ∷ []) }
{
    let mut more = Vec::from_slice(alloc, values)?;
    more.push(value)?;
    Ok(more)
}

fn without_first(alloc: Global, values: &[u64]) -> Result<Vec<u64>, AllocError>
    ensures { IfOk result (λ rest. rest.items ≡ drop 1 values.now) }
{
    match values.split_first() {
        None => Ok(Vec::new(alloc)),
        Some((_, rest)) => Vec::from_slice(alloc, rest),
    }
}

/// A test's answer.
fn number_of(test: bool) -> Answer
    ensures { result ≡ number_of test }
{
    if test {
        Answer::Number(1)
    } else {
        Answer::Number(0)
    }
}

fn first_value(values: &[u64]) -> Answer
    ensures { result ≡ first_value values.now }
{
    match values.first() {
        None => Answer::Nothing,
        Some(value) => Answer::Number(*value),
    }
}

/// A set of keys, and a queue of values.
#[derive(Drop)]
pub(crate) struct Shared {
    keys: Vec<u64>,
    values: Vec<u64>,
}

impl Model for Shared {
    ghost use Rattle.histories.specs.Histories as histories;

    ghost Value = { histories.Shared };

    ghost view = { λ s. record { keys = s.keys.items; values = s.values.items } };
}

impl Shared {
    /// An empty set and an empty queue.
    pub(crate) fn new(alloc: Global) -> Shared
        ensures { result ≡ nothing_shared }
    {
        Shared {
            keys: Vec::new(alloc),
            values: Vec::new(alloc),
        }
    }

    /// What they reply.
    pub(crate) fn reply_to(&self, action: Action) -> Answer
        ensures { result ≡ reply_to self.now action }
    {
        match action {
            Action::Insert(key) => number_of(!has_key(&self.keys, key)),
            Action::Remove(key) => number_of(has_key(&self.keys, key)),
            Action::Contains(key) => number_of(has_key(&self.keys, key)),
            Action::Enqueue(value) => Answer::Number(value),
            Action::Dequeue => first_value(&self.values),
        }
    }

    /// The set's keys after an action.
    fn keys_after(&self, alloc: Global, action: Action) -> Result<Vec<u64>, AllocError>
        ensures { IfOk result (λ keys. keys.items ≡ (after self.now action).keys) }
    {
        match action {
            Action::Insert(key) => with_key(alloc, &self.keys, key),
            Action::Remove(key) => without_key(alloc, &self.keys, key),
            Action::Contains(_) => Vec::from_slice(alloc, &self.keys),
            Action::Enqueue(_) => Vec::from_slice(alloc, &self.keys),
            Action::Dequeue => Vec::from_slice(alloc, &self.keys),
        }
    }

    /// The queue's values after an action.
    fn values_after(&self, alloc: Global, action: Action) -> Result<Vec<u64>, AllocError>
        ensures { IfOk result (λ values. values.items ≡ (after self.now action).values) }
    {
        match action {
            Action::Insert(_) => Vec::from_slice(alloc, &self.values),
            Action::Remove(_) => Vec::from_slice(alloc, &self.values),
            Action::Contains(_) => Vec::from_slice(alloc, &self.values),
            Action::Enqueue(value) => with_value(alloc, &self.values, value),
            Action::Dequeue => without_first(alloc, &self.values),
        }
    }

    /// A set and a queue that hold what these hold after an action.
    pub(crate) fn after(&self, alloc: Global, action: Action) -> Result<Shared, AllocError>
        ensures { IfOk result (λ next. next ≡ after self.now action) }
    {
        let keys = self.keys_after(alloc, action)?;
        let values = self.values_after(alloc, action)?;
        Ok(Shared { keys, values })
    }
}
