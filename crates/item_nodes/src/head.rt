//! The heads of items (RFC 8949 section 3).

ghost use Rattle.std.specs.Prelude.{◌≡◌, ◌<◌, ◌≤◌, List, ℕ, take};
ghost use Rattle.cbor_data.specs.Preferred.{shortest_head, simple_bytes, float_bytes};
ghost use Rattle.cbor_data.specs.Value.{FitsWidth};

use cbor_data::Width;
use std::marker::Model;

/// A head, on the stack. Contracts see it as its bytes.
#[derive(Drop)]
pub struct Head {
    bytes: [u8; 9],
    len: usize,
}

impl Model for Head {
    ghost Value = { List ℕ };

    ghost view = { λ h. take h.len h.bytes };

    ghost invariant = { λ h. h.len ≤ 9 };
}

impl Head {
    /// The shortest head of a major type with an argument (RFC 8949 section 4.2.1).
    pub fn shortest(major: u8, argument: u64) -> Head
        requires { major < 8 }
        ensures { result ≡ shortest_head major argument }
    {
        let high = 32 * major;
        let mut bytes = [0u8; 9];
        if argument < 24 {
            bytes[0] = high + argument as u8;
            return Head { bytes, len: 1 };
        }
        if argument < 1 << 8 {
            bytes[0] = high + 24;
            bytes[1] = argument as u8;
            return Head { bytes, len: 2 };
        }
        if argument < 1 << 16 {
            bytes[0] = high + 25;
            bytes[1..3].copy_from_slice(&(argument as u16).to_be_bytes());
            return Head { bytes, len: 3 };
        }
        if argument < 1 << 32 {
            bytes[0] = high + 26;
            bytes[1..5].copy_from_slice(&(argument as u32).to_be_bytes());
            return Head { bytes, len: 5 };
        }
        bytes[0] = high + 27;
        bytes[1..].copy_from_slice(&argument.to_be_bytes());
        Head { bytes, len: 9 }
    }

    /// A simple value: inside the initial byte below 24, else in the byte after it (RFC 8949 section 3.3).
    pub fn simple(n: u8) -> Head
        ensures { result ≡ simple_bytes n }
    {
        let mut bytes = [0u8; 9];
        if n < 24 {
            bytes[0] = 0xe0 + n;
            return Head { bytes, len: 1 };
        }
        bytes[0] = 0xf8;
        bytes[1] = n;
        Head { bytes, len: 2 }
    }

    /// A float in its own width (RFC 8949 section 3.3).
    pub fn float(width: Width, bits: u64) -> Head
        requires { FitsWidth width bits }
        ensures { result ≡ float_bytes width bits }
    {
        let mut bytes = [0u8; 9];
        match width {
            Width::W16 => {
                bytes[0] = 0xf9;
                bytes[1..3].copy_from_slice(&(bits as u16).to_be_bytes());
                Head { bytes, len: 3 }
            }
            Width::W32 => {
                bytes[0] = 0xfa;
                bytes[1..5].copy_from_slice(&(bits as u32).to_be_bytes());
                Head { bytes, len: 5 }
            }
            Width::W64 => {
                bytes[0] = 0xfb;
                bytes[1..].copy_from_slice(&bits.to_be_bytes());
                Head { bytes, len: 9 }
            }
        }
    }

    /// Its bytes.
    pub fn as_slice(&self) -> &[u8]
        ensures { result.now ≡ self.now }
    {
        &self.bytes[..self.len]
    }
}
