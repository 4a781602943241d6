// The order of byte strings: the first byte that differs decides, and a prefix comes first.
ghost use Rattle.std.specs.Prelude.{◌≡◌};
ghost use Rattle.order.specs.Bytes.{compare_bytes, ByteOrder};

use std::cmp::Ordering;

// How `a` stands to `b`. The order is total, and only equal strings compare as equal.
#[tactic(auto, using(crate::proofs::Bytewise::byte_order, crate::specs::Keyed::bytes_lexical))]
pub fn compare_bytes(a: &[u8], b: &[u8]) -> Ordering
    ensures answer { result ≡ compare_bytes a.now b.now }
    ensures lawful { ByteOrder }
{
    a.cmp(&b)
}
