// The refusals, each with its cause and its number (document 01, 'Who causes which refusal'). No other crate has one of its own.
// docs/FORMATS.md, 'Refusals', is the table of them: who causes each, which calls give it, and which one comes first.
#![tactic(auto)]

ghost use Rattle.std.specs.Prelude.{◌≡◌, ◌≤◌};
ghost use Rattle.refusals.specs.Refused.{number};

// Why a call does not do what it is asked.
#[derive(Clone, Copy, PartialEq, Eq, Debug)]
pub enum Refusal {
    // ---- Client

    // A batch is empty.
    BatchEmpty = 1,
    // A batch has under 4 bytes.
    BatchTooShort = 2,
    // The headers of a batch run past its end.
    HeadersPastEnd = 3,
    // The text of a batch is not UTF-16.
    BatchNotUtf16 = 4,
    // A token message has under 8 bytes.
    TokenTooShort = 5,
    // The outer length of a token message is wrong.
    OuterLength = 6,
    // The inner length of a token message is wrong.
    InnerLength = 7,
    // A packet header has under 8 bytes.
    HeaderTooShort = 8,
    // The type of a packet is unknown.
    UnknownPacketType = 9,
    // A transaction request has no type.
    NoTransactionType = 10,
    // The headers, the procedure or the flags of a procedure call are cut.
    CallCut = 29,
    // A parameter of a procedure call is cut, its value has a wrong length, or sp_executesql has none.
    ParameterCut = 30,
    // A parameter's type is not read, it is encrypted, or a second call follows.
    ParameterNotRead = 31,
    // The headers length of a request is 0 to 3, so that it cannot hold its own four bytes.
    HeadersTooSmall = 35,

    // ---- Script's author

    // A record is cut.
    RecordCut = 11,
    // A kind is unknown or out of order, or a script has no set.
    KindWrong = 12,
    // A payload has a wrong shape.
    ShapeWrong = 13,
    // A text of a record is not UTF-16.
    TextWrong = 14,
    // A chunk is empty.
    EmptyChunk = 15,
    // A column, server or procedure name is over 255 units.
    NameTooLong = 16,
    // A result is over 65,535 bytes, or a label over 65,535 characters.
    ResultTooLong = 17,

    // ---- Caller

    // The input of a program is over 65,536 bytes, or packets to read or a label over 131,072.
    InputTooLong = 18,
    // A lent buffer is too short.
    BufferTooShort = 20,
    // A text argument has an odd number of bytes.
    OddText = 21,
    // A text argument is not UTF-16.
    NotUtf16 = 22,
    // A unit of a label has no byte in Windows-1252.
    UnitWithoutByte = 36,
    // A packet size is under 512 or over 32,767 bytes.
    PacketSize = 32,

    // ---- Sender of a reply

    // A packet is not of type 04, or its length is under 9 or past the bytes lent.
    NotAReply = 23,
    // A packet's number is not the next.
    NotTheNext = 33,
    // A reply must go on past a packet's payload, and bytes follow the end bit, or none follow and there is no end bit.
    EndBitWrong = 34,
    // A reply is cut within a token or before the last DONE, a position is one that is refused, or a label's value is cut.
    Cut = 24,
    // A byte begins no token.
    UnknownToken = 25,
    // An inner length or a type is wrong, or bytes follow the last DONE or a label's value.
    InnerWrong = 26,
    // A set has over 128 columns.
    TooManyColumns = 27,
    // A row stands in a set without columns.
    RowWithoutColumns = 28,
}

impl Refusal {
    // The number of document 01.
    pub fn number(self) -> u8
        ensures { result ≡ number self }
    {
        self as u8
    }
}
