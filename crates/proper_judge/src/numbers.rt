//! Numbers of names.

ghost use Rattle.std.specs.Prelude.{◌≡◌, ◌<◌, ℕ, OnOk, OnErr};
ghost use Rattle.proper_judge.specs.Numbers.{number_near, numbering, numbered, IsSetNear};

use std::alloc::{AllocError, Global};
use std::collections::BTreeMap;

/// Names below this are looked up by their place, and others in an index.
pub(crate) const NEAR: u64 = 1_048_576;

/// A number of each name; 0 if none was set.
#[derive(Drop)]
pub(crate) struct Numbers {
    near: Vec<u64>,
    far: BTreeMap<u64, u64>,
}

impl Numbers {
    /// No number was set.
    pub(crate) fn none(alloc: Global) -> Numbers
        ensures { (name : ℕ) → numbering result name ≡ 0 }
    {
        Numbers {
            near: Vec::new(alloc),
            far: BTreeMap::new(alloc),
        }
    }

    /// The number of a name.
    pub(crate) fn get(&self, name: u64) -> u64
        ensures { result ≡ numbering self.now name }
    {
        if name < NEAR {
            number_near(&self.near, name as usize)
        } else {
            self.far.get(&name).copied().unwrap_or(0)
        }
    }

    /// Sets the number of a name.
    pub(crate) fn set(&mut self, name: u64, number: u64) -> Result<(), AllocError>
        ensures ok { OnOk result ((other : ℕ) → numbering self.new other ≡ numbered (numbering self.old) name number other) }
        ensures err { OnErr result ((other : ℕ) → numbering self.new other ≡ numbering self.old other) }
    {
        if name < NEAR {
            set_near(&mut self.near, name as usize, number)
        } else {
            self.far.insert(name, number)?;
            Ok(())
        }
    }
}

fn number_near(near: &Vec<u64>, place: usize) -> u64
    ensures { result ≡ number_near near.now.items place }
{
    match near.get(place) {
        None => 0,
        Some(number) => *number,
    }
}

/// Sets the number at a place. Those between the end and the place are 0.
fn set_near(near: &mut Vec<u64>, place: usize, number: u64) -> Result<(), AllocError>
    requires { place < NEAR }
    ensures ok { OnOk result (IsSetNear near.old.items place number near.new.items) }
    ensures err { OnErr result (near.new.items ≡ near.old.items) }
{
    if place >= near.len() {
        near.resize(place + 1, 0)?;
    }
    near[place] = number;
    Ok(())
}
