// Varints, texts and skips.
ghost use Rattle.std.specs.Prelude.{◌≡◌, [], ◌∷◌, ◌+◌, length, drop, leb, if◌then◌else◌};
ghost use Rattle.spec.specs.Base.{refusal, taken};
ghost use Rattle.spec.specs.Varint.{varint32, varint64, encode};
ghost use Rattle.spec.specs.Utf8.{valid_prefix};
ghost use Rattle.spec.specs.Skip.{skip_field_for_tag, read_unknown_or_skip_group};
ghost use Rattle.spec.specs.Document.{is_document};
ghost use Rattle.wire.specs.Answers.{stored};
ghost use Rattle.calf.specs.Told.{behind};

use crate::told;

// The varint at a place: its value and the place after it.
pub fn calf_varint64(s: &[u8], at: usize, answer: &mut [u64; 2]) -> u32
    ensures { (result ≡ refusal (varint64 (drop at s.now)))
        × (answer.new ≡ behind at (varint64 (drop at s.now))) }
{
    told::found(wire::varint::decode::decode_varint64(s, at), answer)
}

// The same of 32 bits.
pub fn calf_varint32(s: &[u8], at: usize, answer: &mut [u64; 2]) -> u32
    ensures { (result ≡ refusal (varint32 (drop at s.now)))
        × (answer.new ≡ behind at (varint32 (drop at s.now))) }
{
    told::found(wire::varint::decode::decode_varint32(s, at), answer)
}

// Stores a varint at a place: the place after it; or 0 where it has no room, and nothing is stored.
pub fn calf_put_varint(value: u64, out: &mut [u8], at: usize) -> usize
    ensures { (result ≡ (if leb (at + length (encode value)) (length out.old) then at + length (encode value) else 0))
        × (out.new ≡ (if leb (at + length (encode value)) (length out.old) then stored at (encode value) out.old else out.old)) }
{
    wire::varint::encode::put_varint64(value, out, at).unwrap_or(0)
}

// How many bytes at the front are valid UTF-8.
pub fn calf_utf8_prefix(s: &[u8]) -> usize
    ensures { result ≡ valid_prefix s.now }
{
    utf8::utf8_prefix(s)
}

// ---- skipping

// The field after a tag, every group counted: how many bytes it takes.
pub fn calf_skip_field_for_tag(tag: u32, s: &[u8], level: u32, answer: &mut [u64; 1]) -> u32
    ensures { (result ≡ refusal (skip_field_for_tag tag level s.now))
        × (answer.new ≡ taken (skip_field_for_tag tag level s.now) ∷ []) }
{
    told::skipped(
        skip::unknown_or_group::skip_field_for_tag(tag, s, level),
        answer,
    )
}

// The same as the message loop does it: the outermost group is not counted, and must end.
pub fn calf_read_unknown_or_skip_group(tag: u32, s: &[u8], level: u32, answer: &mut [u64; 1]) -> u32
    ensures { (result ≡ refusal (read_unknown_or_skip_group tag level s.now))
        × (answer.new ≡ taken (read_unknown_or_skip_group tag level s.now) ∷ []) }
{
    told::skipped(
        skip::unknown_or_group::read_unknown_or_skip_group(tag, s, level),
        answer,
    )
}

// Whether the bytes are a document.
pub fn calf_is_document(s: &[u8]) -> bool
    ensures { result ≡ is_document s.now }
{
    skip::document::is_document(s)
}
