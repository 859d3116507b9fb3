// Packed bytes become symbols, and symbols packed bytes: the high four bits of a byte are the first of its two symbols.
#![tactic(auto)]

ghost use Rattle.std.specs.Prelude.{◌≡◌, false, ◌*◌, length};
ghost use Rattle.symbols.specs.Rule.{any_beyond};
ghost use Rattle.packing.specs.Packing.{unpacked, packed, packed_q};

// Two symbols from each byte.
pub fn unpack(bytes: &[u8], symbols: &mut [u8])
    requires { length symbols.old ≡ 2 * length bytes.now }
    ensures { (symbols.new ≡ unpacked bytes.now (length symbols.old))
        × (any_beyond packed_q symbols.new ≡ false) }
{
    for (i, &byte) in bytes.iter().enumerate() {
        symbols[2 * i] = byte / 16;
        symbols[2 * i + 1] = byte % 16;
    }
}

// A byte from each two symbols.
pub fn pack(symbols: &[u8], bytes: &mut [u8])
    requires { (length symbols.now ≡ 2 * length bytes.old) × (any_beyond packed_q symbols.now ≡ false) }
    ensures { bytes.new ≡ packed symbols.now (length bytes.old) }
{
    for (i, byte) in bytes.iter_mut().enumerate() {
        let high = symbols[2 * i];
        let low = symbols[2 * i + 1];
        *byte = high * 16 + low;
    }
}
