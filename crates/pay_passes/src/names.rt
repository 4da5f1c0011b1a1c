//! The numbers of names.

ghost use Rattle.std.specs.Prelude.{◌≡◌, ◌≤◌, ◌<◌, IfOk, length};
ghost use Rattle.pay_passes.specs.Numbering.{AreNumbered, HaveOwnNumbers, number_in};

use pay_fixed::NoMemory;
use pay_tree::Name;
use std::alloc::Global;
use std::collections::BTreeMap;

/// The number of each of some names: its place among them, from 0.
#[derive(Drop)]
pub struct NameNumbers<'a> {
    names: &'a [Name],
    numbers: BTreeMap<&'a Name, u32>,
    ghost few: { length names.now ≤ 1024 },
    ghost distinct: { HaveOwnNumbers names.now },
    ghost numbered: { AreNumbered names.now numbers },
}

impl<'a> NameNumbers<'a> {
    /// The numbers of these names, which are distinct and at most 1,024.
    ///
    /// # Errors
    ///
    /// [`NoMemory`] where there was no memory for the numbers.
    pub fn new(alloc: Global, names: &'a [Name]) -> Result<NameNumbers<'a>, NoMemory>
        requires few { length names.now ≤ 1024 }
        requires distinct { HaveOwnNumbers names.now }
        ensures { IfOk result (λ numbers. numbers.names.now ≡ names.now) }
    {
        let mut numbers = BTreeMap::new(alloc);
        for (number, name) in names.iter().enumerate() {
            numbers.insert(name, number as u32)?;
        }
        Ok(NameNumbers { names, numbers })
    }

    /// The number of a name, or how many there are where it is none of them.
    pub fn number_of(&self, name: &'a Name) -> u32
        ensures { result ≡ number_in self.now.names.now name.now }
    {
        match self.numbers.get(&name) {
            Some(number) => *number,
            None => self.names.len() as u32,
        }
    }
}
