//! The text of a packet's bytes.
#![tactic(auto)]

ghost use Rattle.std.specs.Prelude.{◌≡◌, IfOk, string_bytes};
ghost use Rattle.packet_hex.specs.Texts.{packet_text};

use std::alloc::{AllocError, Global};

/// The bytes of a packet, two lower-case hexadecimal digits each, or a hyphen for none.
pub fn packet_text(heap: Global, packet: &[u8]) -> Result<String, AllocError>
    ensures { IfOk result (λ s. string_bytes s ≡ packet_text packet.now) }
{
    if packet.is_empty() {
        return String::from_str(heap, "-");
    }
    hex::encode(heap, packet)
}

#[cfg(test)]
mod tests {
    use super::packet_text;
    use std::test::Fail;

    #[test]
    fn writes_two_digits_a_byte(rt: HostRuntime) -> Result<(), Fail> {
        let heap = rt.alloc();
        assert_eq!(rt; packet_text(heap, b"\x00\x0a\xff")?.as_str(), "000aff");
        assert_eq!(rt; packet_text(heap, &[])?.as_str(), "-");
        Ok(())
    }
}
