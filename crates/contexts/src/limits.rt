// Names, configurations and properties, each within its limit.
ghost use Rattle.std.specs.Prelude.{◌≡◌, ◌≤◌, ◌↔◌, [], length, Err, IfOk, OnOk, OnErr, option_copied};
ghost use Rattle.std.specs.List.{position};
ghost use Rattle.contexts.specs.Properties.{is_at, property_of, property_set, IsPastLimit};
ghost use Rattle.contexts.specs.declared.limits.PropertyEnd.TheVariants as end;
ghost use Rattle.contexts.specs.declared.limits.PropertyEnd.TheVariants.{OutOfMemory};

use gate_base::{Octets, OutOfMemory, Pairs};
use std::alloc::{AllocError, Global};
use std::marker::Model;

/// How many properties a context may have.
const PROPERTY_LIMIT: usize = 64;

/// How many bytes a path or a value may have.
const PROPERTY_BYTES: usize = 4096;

/// The name of a VM or of a plug-in, at most 32 bytes. Clauses see the list of its bytes.
#[derive(Drop)]
pub struct ShortName {
    bytes: Octets,
}

impl Model for ShortName {
    ghost use Rattle.std.specs.Prelude.{List, ℕ, ◌≤◌, length};

    ghost Value = { List ℕ };

    ghost view = { λ n. n.bytes };

    ghost invariant = { λ n. length n.bytes ≤ 32 };
}

impl ShortName {
    /// A copy of a name.
    pub fn of(alloc: Global, name: &[u8]) -> Result<Self, OutOfMemory>
        requires { length name.now ≤ 32 }
        ensures { IfOk result (λ n. n ≡ name.now) }
    {
        let bytes = Octets::from_slice(alloc, name)?;
        Ok(ShortName { bytes })
    }

    /// The bytes.
    pub fn as_slice(&self) -> &[u8]
        ensures bytes { result.now ≡ self.now }
        ensures short { length self.now ≤ 32 }
    {
        self.bytes.as_slice()
    }
}

/// The configuration of a VM or of a plug-in, at most 65,536 bytes. Clauses see the list of its bytes.
#[derive(Drop)]
pub struct Configuration {
    bytes: Octets,
}

impl Model for Configuration {
    ghost use Rattle.std.specs.Prelude.{List, ℕ, ◌≤◌, length};

    ghost Value = { List ℕ };

    ghost view = { λ c. c.bytes };

    ghost invariant = { λ c. length c.bytes ≤ 65536 };
}

impl Configuration {
    /// A copy of a configuration.
    pub fn of(alloc: Global, configuration: &[u8]) -> Result<Self, OutOfMemory>
        requires { length configuration.now ≤ 65536 }
        ensures { IfOk result (λ c. c ≡ configuration.now) }
    {
        let bytes = Octets::from_slice(alloc, configuration)?;
        Ok(Configuration { bytes })
    }

    /// The bytes.
    pub fn as_slice(&self) -> &[u8]
        ensures bytes { result.now ≡ self.now }
        ensures short { length self.now ≤ 65536 }
    {
        self.bytes.as_slice()
    }
}

/// What a context has set under paths: at most 64, each path and value at most 4,096 bytes.
/// Clauses see the list of the paths with their values.
#[derive(Drop)]
pub struct Properties {
    items: Pairs,
}

impl Model for Properties {
    ghost use Rattle.std.specs.Prelude.{List, ℕ};
    ghost use Rattle.contexts.specs.Properties.{AreProperties};

    ghost Value = { List (List ℕ × List ℕ) };

    ghost view = { λ p. p.items };

    ghost invariant = { λ p. AreProperties p.items };
}

/// Why a property is not set.
#[derive(Clone, Copy, PartialEq, Eq)]
pub enum PropertyEnd {
    /// Past a limit: the path's or the value's bytes, or the number of properties.
    PastLimit,
    /// Memory ran out.
    OutOfMemory,
}

impl From<AllocError> for PropertyEnd {
    ghost from_gives = { λ _ e. e ≡ OutOfMemory };

    fn from(_: AllocError) -> Self {
        PropertyEnd::OutOfMemory
    }
}

/// Whether a property is at a path.
fn is_at(path: &[u8], property: &(Octets, Octets)) -> bool
    ensures { result ≡ is_at path.now property.now }
{
    property.0.as_slice() == path
}

/// Where the property of a path stands.
fn property_place(properties: &[(Octets, Octets)], path: &[u8]) -> Option<usize>
    ensures { result ≡ position (is_at path.now) properties.now }
{
    properties.iter().position(|p| is_at(path, p))
}

/// A property, copied.
fn copied(alloc: Global, path: &[u8], value: &[u8]) -> Result<(Octets, Octets), OutOfMemory>
    ensures { IfOk result (λ p. p ≡ (path.now, value.now)) }
{
    let path = Octets::from_slice(alloc, path)?;
    Ok((path, Octets::from_slice(alloc, value)?))
}

impl Properties {
    /// No properties. It takes no memory.
    pub fn new(alloc: Global) -> Self
        ensures { result ≡ [] }
    {
        Properties {
            items: Pairs::new(alloc),
        }
    }

    /// The value at a path.
    pub fn get(&self, path: &[u8]) -> Option<&Octets>
        ensures { option_copied result ≡ property_of path.now self.now }
    {
        match self.items.as_slice().iter().find(|p| is_at(path, p)) {
            Some(p) => Some(&p.1),
            None => None,
        }
    }

    /// Puts a value at a path, in place of the one that is there or after the others.
    pub fn set(&mut self, alloc: Global, path: &[u8], value: &[u8]) -> Result<(), PropertyEnd>
        ensures ok { OnOk result (self.new ≡ property_set path.now value.now self.old) }
        ensures past_limit { (result ≡ Err end.PastLimit) ↔ IsPastLimit path.now value.now self.old }
        ensures err { OnErr result (self.new ≡ self.old) }
    {
        if path.len() > PROPERTY_BYTES || value.len() > PROPERTY_BYTES {
            return Err(PropertyEnd::PastLimit);
        }
        match property_place(self.items.as_slice(), path) {
            Some(at) => *self.items.get_mut(at) = copied(alloc, path, value)?,
            None => {
                if self.items.len() >= PROPERTY_LIMIT {
                    return Err(PropertyEnd::PastLimit);
                }
                self.items.push(copied(alloc, path, value)?)?;
            }
        }
        Ok(())
    }
}
