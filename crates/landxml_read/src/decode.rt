//! The values of attributes, decoded.

ghost use Rattle.std.specs.Prelude.{◌≡◌, IfOk, OnOk, Some, None, if◌then◌else◌};
ghost use Rattle.landxml_read.specs.Values.{decoded, reference};
ghost use Rattle.landxml_read.specs.Decoding.{no_decoding, space_for, plain_next, replaced, decoding_next};

use crate::buffer::Buffer;
use crate::reference::referenced;
use std::alloc::{AllocError, Global};

/// A value that is decoded.
#[derive(Drop)]
pub(crate) struct Decoding {
    /// What was decoded so far.
    pub(crate) out: Buffer,
    /// Whether the last byte was a CR.
    pub(crate) after_cr: bool,
    /// Whether a reference is open.
    pub(crate) in_name: bool,
    /// What stands between its `&` and the next byte.
    pub(crate) name: Buffer,
}

// A raw TAB, LF or CR as a space.
fn space(b: u8) -> u8
    ensures { result ≡ space_for b }
{
    if b == b'\t' || b == b'\n' || b == b'\r' {
        b' '
    } else {
        b
    }
}

impl Decoding {
    // At the beginning of a value.
    fn new(alloc: Global) -> Decoding
        ensures { result ≡ no_decoding }
    {
        Decoding {
            out: Buffer::new(alloc),
            after_cr: false,
            in_name: false,
            name: Buffer::new(alloc),
        }
    }

    // A byte outside a reference.
    fn plain(&mut self, b: u8) -> Result<(), AllocError>
        ensures { OnOk result (plain_next self.old b ≡ Some self.new) }
    {
        if b == b'&' {
            self.in_name = true;
            self.name.clear();
            return Ok(());
        }
        if self.after_cr && b == b'\n' {
            self.after_cr = false;
            return Ok(());
        }
        self.out.push(space(b))?;
        self.after_cr = b == b'\r';
        Ok(())
    }

    // The end of a reference: false where it isn't listed.
    fn replace(&mut self) -> Result<bool, AllocError>
        ensures { IfOk result (λ listed. replaced self.old (reference self.old.name) ≡ (if listed then Some self.new else None)) }
    {
        let Some(c) = referenced(self.name.as_slice()) else {
            return Ok(false);
        };
        let mut text = [0u8; 4];
        self.out.extend(c.encode_utf8(&mut text).as_bytes())?;
        self.after_cr = false;
        self.in_name = false;
        Ok(true)
    }

    // The next byte: false where no reference goes on with it.
    fn after(&mut self, b: u8) -> Result<bool, AllocError>
        ensures { IfOk result (λ listed. decoding_next self.old b ≡ (if listed then Some self.new else None)) }
    {
        if !self.in_name {
            self.plain(b)?;
            return Ok(true);
        }
        if b == b'&' {
            return Ok(false);
        }
        if b == b';' {
            return self.replace();
        }
        self.name.push(b)?;
        Ok(true)
    }
}

/// The value with its references replaced and its white as spaces. None where one isn't listed.
pub(crate) fn decode(value: &[u8], alloc: Global) -> Result<Option<Buffer>, AllocError>
    ensures { IfOk result (λ text. text ≡ decoded value.now) }
{
    let mut decoding = Decoding::new(alloc);
    for b in value {
        if !decoding.after(*b)? {
            return Ok(None);
        }
    }
    if decoding.in_name {
        Ok(None)
    } else {
        let Decoding { out, .. } = decoding;
        Ok(Some(out))
    }
}
