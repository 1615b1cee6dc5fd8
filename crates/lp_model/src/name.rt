//! Names of rows and columns.

ghost use Rattle.std.specs.Prelude.{◌≡◌, IfOk, not};
ghost use Rattle.std.specs.List.{list_all};
ghost use Rattle.lp_model.specs.Name.{is_break, is_name, IsName};

use std::alloc::{AllocError, Global};
use std::marker::Model;

/// The name of a row or a column: some bytes, none of which is a space, a tab or a line feed.
#[derive(Drop)]
pub struct Name {
    bytes: Vec<u8>,
}

impl Model for Name {
    ghost use Rattle.std.specs.Prelude.{List, ℕ};
    ghost use Rattle.lp_model.specs.Name.{IsName};

    ghost Value = { List ℕ };

    ghost view = { λ name. name.bytes.items };

    ghost invariant = { λ name. IsName name.bytes.items };
}

/// Whether a byte is a space, a tab or a line feed.
fn is_break(byte: u8) -> bool
    ensures { result ≡ is_break byte }
{
    byte == b' ' || byte == b'\t' || byte == b'\n'
}

/// Whether none of the bytes is a space, a tab or a line feed.
fn is_unbroken(bytes: &[u8]) -> bool
    ensures { result ≡ list_all (λ b. not (is_break b)) bytes.now }
{
    bytes.iter().all(|byte| !is_break(*byte))
}

/// Whether bytes can be a name: there are some, and none of them is a space, a tab or a line feed.
pub fn is_name(bytes: &[u8]) -> bool
    ensures { result ≡ is_name bytes.now }
{
    !bytes.is_empty() && is_unbroken(bytes)
}

impl Name {
    /// The name with these bytes. They can be one, as [`is_name`] tells.
    pub fn new(bytes: Vec<u8>) -> Name
        requires { IsName bytes.items }
        ensures { result ≡ bytes.items }
    {
        Name { bytes }
    }

    /// A copy of bytes as a name. They can be one, as [`is_name`] tells.
    pub fn from_slice(alloc: Global, bytes: &[u8]) -> Result<Name, AllocError>
        requires { IsName bytes.now }
        ensures { IfOk result (λ name. name ≡ bytes.now) }
    {
        Ok(Name {
            bytes: Vec::from_slice(alloc, bytes)?,
        })
    }

    /// The bytes: there are some, and none of them is a space, a tab or a line feed.
    pub fn as_bytes(&self) -> &[u8]
        ensures bytes { result.now ≡ self.now }
        ensures named { IsName self.now }
    {
        self.bytes.as_slice()
    }

    /// An equal name.
    pub fn copy(&self, alloc: Global) -> Result<Name, AllocError>
        ensures { IfOk result (λ name. name ≡ self.now) }
    {
        Name::from_slice(alloc, self.bytes.as_slice())
    }
}
