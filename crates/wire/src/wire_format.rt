// Wire types, tags and the size limit: src/wire_format.rs of rust-protobuf.
ghost use Rattle.std.specs.Prelude.{◌≡◌, get_or, take, leb, if◌then◌else◌};
ghost use Rattle.spec.specs.Names.{bad_tag, fixed32_wire, no_wire, record_kinds};
ghost use Rattle.spec.specs.Base.{Took, require, limited};
ghost use Rattle.spec.specs.Varint.{good_tag, make_tag};
ghost use Rattle.spec.specs.Kind.{kind_wires, wires, wire};
ghost use Rattle.wire.specs.FormatTold.{wire_number, wire_told, tag_value, tag_told, size_told};

use spec::refusals::Refusal;
use spec::{kinds, limits, wire_types};

// The largest field number, and the most bytes of a message.
const FIELD_NUMBER_MAX: u32 = limits::LARGEST_NUMBER;

pub const MAX_MESSAGE_SIZE: u64 = limits::LIMIT;

// The first number that descriptor.proto has no kind for, and the first that no kind has.
const OWN_KINDS: u32 = kinds::OWN_KINDS as u32;

const ALL_KINDS: u32 = kinds::ALL_KINDS as u32;

// Wire types as numbers of 32 bits.
const VARINT: u32 = wire_types::VARINT as u32;

const FIXED64: u32 = wire_types::FIXED64 as u32;

const DELIMITED: u32 = wire_types::DELIMITED as u32;

const START_GROUP: u32 = wire_types::START_GROUP as u32;

const END_GROUP: u32 = wire_types::END_GROUP as u32;

const FIXED32: u32 = wire_types::FIXED32 as u32;

// The wire type of each kind of descriptor.proto, from 0 on; NONE, which no tag has, where there is no such kind.
pub const KIND_WIRES: [u8; kinds::OWN_KINDS] = [
    wire_types::NONE, // none
    wire_types::FIXED64, // double
    wire_types::FIXED32, // float
    wire_types::VARINT, // int64
    wire_types::VARINT, // uint64
    wire_types::VARINT, // int32
    wire_types::FIXED64, // fixed64
    wire_types::FIXED32, // fixed32
    wire_types::VARINT, // bool
    wire_types::DELIMITED, // string
    wire_types::NONE, // none
    wire_types::DELIMITED, // message
    wire_types::DELIMITED, // bytes
    wire_types::VARINT, // uint32
    wire_types::VARINT, // enum
    wire_types::FIXED32, // sfixed32
    wire_types::FIXED64, // sfixed64
    wire_types::VARINT, // sint32
    wire_types::VARINT, // sint64
];

// The same of our own kinds, from OWN_KINDS on.
const OWN_WIRES: [u8; kinds::ALL_KINDS - kinds::OWN_KINDS] = [
    wire_types::NONE, // none
    wire_types::DELIMITED, // packed head
    wire_types::VARINT, // unknown varint
    wire_types::FIXED64, // unknown fixed64
    wire_types::DELIMITED, // unknown bytes
    wire_types::FIXED32, // unknown fixed32
    wire_types::START_GROUP, // group start
    wire_types::END_GROUP, // group end
];

// The table as a value: a caller takes it once and lends it to what looks up many kinds.
pub fn kind_wires() -> [u8; kinds::OWN_KINDS]
    ensures { result ≡ kind_wires }
{
    KIND_WIRES
}

// The wire types of all kinds that a record has, as a table for many lookups.
pub fn record_wires() -> [u8; kinds::RECORD_KINDS]
    ensures { result ≡ take record_kinds wires }
{
    let k = KIND_WIRES;
    [
        k[0],
        k[1],
        k[2],
        k[3],
        k[4],
        k[5],
        k[6],
        k[7],
        k[8],
        k[9],
        k[10],
        k[11],
        k[12],
        k[13],
        k[14],
        k[15],
        k[16],
        k[17],
        k[18],
        wire_types::NONE, // none
        wire_types::DELIMITED, // packed head
        wire_types::VARINT, // unknown varint
        wire_types::FIXED64, // unknown fixed64
        wire_types::DELIMITED, // unknown bytes
        wire_types::FIXED32, // unknown fixed32
    ]
}

// The wire type of any kind, also of our own (the packed head, the unknown ones, the start and the end of a group); NONE where there is no such kind.
pub fn wire_of(kind: u32) -> u8
    ensures { result ≡ wire kind }
{
    if kind < OWN_KINDS {
        return KIND_WIRES[kind as usize];
    }
    if kind < ALL_KINDS {
        let own = kind - OWN_KINDS;
        return OWN_WIRES[own as usize];
    }
    wire_types::NONE
}

// All wire types that a tag may have.
#[derive(Clone, Copy, Debug, PartialEq, Eq)]
pub enum WireType {
    Varint,
    Fixed64,
    LengthDelimited,
    StartGroup,
    EndGroup,
    Fixed32,
}

impl WireType {
    // The wire type of this number, if there is one.
    pub fn new(n: u32) -> Option<WireType>
        ensures { wire_told result ≡ (if leb n fixed32_wire then n else no_wire) }
    {
        match n {
            VARINT => Some(WireType::Varint),
            FIXED64 => Some(WireType::Fixed64),
            DELIMITED => Some(WireType::LengthDelimited),
            START_GROUP => Some(WireType::StartGroup),
            END_GROUP => Some(WireType::EndGroup),
            FIXED32 => Some(WireType::Fixed32),
            _ => None,
        }
    }

    // The wire type of a kind of descriptor.proto, if there is such a kind.
    pub fn for_type(kind: u32) -> Option<WireType>
        ensures { wire_told result ≡ get_or kind_wires kind no_wire }
    {
        if kind < OWN_KINDS {
            let n = KIND_WIRES[kind as usize];
            return WireType::new(n as u32);
        }
        None
    }

    // The number of a wire type.
    pub fn number(self) -> u32
        ensures { result ≡ wire_number self }
    {
        self as u32
    }
}

// A field's number and wire type.
#[derive(Clone, Copy, Debug, PartialEq, Eq)]
pub struct Tag {
    pub field_number: u32,
    pub wire_type: WireType,
}

impl Tag {
    // The tag that an integer is.
    pub fn new(value: u32) -> Result<Tag, Refusal>
        ensures { tag_told result ≡ require bad_tag good_tag (Took value 0) }
    {
        let Some(wire_type) = WireType::new(value % 8) else {
            return Err(Refusal::BadTag);
        };
        let field_number = value / 8;
        if field_number == 0 {
            return Err(Refusal::BadTag);
        }
        Ok(Tag {
            field_number,
            wire_type,
        })
    }

    // The tag of a field number and a wire type's number.
    pub fn make(number: u32, wire_type: u32) -> Result<Tag, Refusal>
        ensures { tag_told result ≡ make_tag number wire_type }
    {
        if number == 0 {
            return Err(Refusal::BadTag);
        }
        if FIELD_NUMBER_MAX < number {
            return Err(Refusal::BadTag);
        }
        let Some(known) = WireType::new(wire_type) else {
            return Err(Refusal::BadTag);
        };
        Ok(Tag {
            field_number: number,
            wire_type: known,
        })
    }

    // The integer that a tag is written as. Of a field number that no tag has it can be above 32 bits.
    pub fn value(self) -> u64
        ensures { result ≡ tag_value self }
    {
        let wire_type = self.wire_type;
        self.field_number as u64 * 8 + wire_type.number() as u64
    }

    pub fn field_number(self) -> u32
        ensures { result ≡ self.field_number }
    {
        self.field_number
    }

    pub fn wire_type(self) -> WireType
        ensures { result ≡ self.wire_type }
    {
        self.wire_type
    }
}

// A size that may be read or written.
pub fn check_message_size(size: u64) -> Result<u64, Refusal>
    ensures { size_told result ≡ limited size }
{
    if size <= MAX_MESSAGE_SIZE {
        Ok(size)
    } else {
        Err(Refusal::TooLarge)
    }
}
