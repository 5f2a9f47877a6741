//! The names in a condition, each with a number.

ghost use Rattle.std.specs.Prelude.{◌≡◌, [], map, Some, IfOk, IfSome, slice_get};
ghost use Rattle.filter_truth.specs.Numbers.{Keeps};

use std::alloc::{AllocError, Global};
use std::collections::BTreeMap;
use std::marker::Model;

/// So many names are looked through, which is less than to keep the number of each.
const FEW: usize = 16;

/// Names, each at the place of its number.
#[derive(Drop)]
pub struct NameNumbers<'a> {
    names: Vec<&'a [u8]>,
    /// The numbers of the names after the first few. They are tried, and never trusted.
    numbers: BTreeMap<&'a [u8], usize>,
}

impl<'a> Model for NameNumbers<'a> {
    ghost use Rattle.std.specs.Prelude.{ℕ, List, map};

    ghost Value = { List (List ℕ) };

    ghost view = { λ n. map (λ name. name.now) n.names.items };
}

/// The place of a name among the first few, if it is there.
fn early_number(names: &[&[u8]], name: &[u8]) -> Option<usize>
    ensures { IfSome result (λ number. slice_get (map (λ known. known.now) names.now) number ≡ Some name.now) }
{
    let few = names.len().min(FEW);
    for number in 0..few {
        let known = names[number];
        if known == name {
            return Some(number);
        }
    }
    None
}

/// The number that was noted for a name.
fn noted(numbers: &BTreeMap<&[u8], usize>, name: &[u8]) -> Option<usize> {
    numbers.get(name).copied()
}

/// The place of a name where its number was noted, if it is there.
fn late_number(names: &[&[u8]], numbers: &BTreeMap<&[u8], usize>, name: &[u8]) -> Option<usize>
    ensures { IfSome result (λ number. slice_get (map (λ known. known.now) names.now) number ≡ Some name.now) }
{
    let number = noted(numbers, name)?;
    if number < names.len() {
        let known = names[number];
        if known == name {
            return Some(number);
        }
    }
    None
}

/// The place of a name, if it is there.
fn number_of(names: &[&[u8]], numbers: &BTreeMap<&[u8], usize>, name: &[u8]) -> Option<usize>
    ensures { IfSome result (λ number. slice_get (map (λ known. known.now) names.now) number ≡ Some name.now) }
{
    match early_number(names, name) {
        Some(number) => Some(number),
        None => late_number(names, numbers, name),
    }
}

/// Notes the number of a name, unless it is among the first few.
fn note<'a>(
    name: &'a [u8],
    number: usize,
    numbers: &mut BTreeMap<&'a [u8], usize>,
) -> Result<(), AllocError> {
    if number >= FEW {
        let _ = numbers.insert(name, number)?;
    }
    Ok(())
}

impl<'a> NameNumbers<'a> {
    /// No names.
    pub fn new(alloc: Global) -> NameNumbers<'a>
        ensures { result ≡ [] }
    {
        NameNumbers {
            names: Vec::new(alloc),
            numbers: BTreeMap::new(alloc),
        }
    }

    /// The number of a name, which gets one if it has none yet.
    pub fn number(&mut self, name: &'a [u8]) -> Result<usize, AllocError>
        ensures kept { Keeps self.old self.new }
        ensures found { IfOk result (λ number. slice_get self.new number ≡ Some name.now) }
    {
        if let Some(number) = number_of(&self.names, &self.numbers, name) {
            return Ok(number);
        }
        let number = self.names.len();
        note(name, number, &mut self.numbers)?;
        self.names.push(name)?;
        Ok(number)
    }

    /// The names in the order of their numbers.
    pub fn names(&self) -> &[&'a [u8]]
        ensures { map (λ name. name.now) result.now ≡ self.now }
    {
        &self.names
    }
}
