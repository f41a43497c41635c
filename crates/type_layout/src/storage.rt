//! How ordinals and sets are stored.

ghost use Rattle.std.specs.Prelude.{◌≡◌, ◌≤◌, ◌^◌};
ghost use Rattle.type_layout.specs.Storage.{least_of, greatest_of, width_of, holds, integer_storage, storage_of, count_between, set_bytes};

use crate::Host;

impl Host {
    /// The least value.
    pub fn least(self) -> i32
        ensures { result ≡ least_of self }
    {
        match self {
            Host::ShortInt => -128,
            Host::Integer => -32_768,
            Host::LongInt => i32::MIN,
            Host::Byte | Host::Word | Host::Char | Host::Boolean | Host::Enumeration => 0,
        }
    }

    /// The greatest value; an enumeration has at most 256.
    pub fn greatest(self) -> i32
        ensures { result ≡ greatest_of self }
    {
        match self {
            Host::ShortInt => 127,
            Host::Byte | Host::Char | Host::Enumeration => 255,
            Host::Integer => 32_767,
            Host::Word => 65_535,
            Host::LongInt => i32::MAX,
            Host::Boolean => 1,
        }
    }

    /// The bytes of a value that is stored as this host.
    pub fn width(self) -> u32
        ensures { result ≡ width_of self }
    {
        match self {
            Host::ShortInt | Host::Byte | Host::Char | Host::Boolean | Host::Enumeration => 1,
            Host::Integer | Host::Word => 2,
            Host::LongInt => 4,
        }
    }

    /// Whether all of `low..high` are values of this host.
    pub fn holds(self, low: i32, high: i32) -> bool
        ensures { result ≡ holds self low high }
    {
        self.least() <= low && high <= self.greatest()
    }
}

// The first predefined type of integers that holds both bounds.
fn integer_storage(low: i32, high: i32) -> Host
    ensures { result ≡ integer_storage low high }
{
    if Host::ShortInt.holds(low, high) {
        Host::ShortInt
    } else if Host::Byte.holds(low, high) {
        Host::Byte
    } else if Host::Integer.holds(low, high) {
        Host::Integer
    } else if Host::Word.holds(low, high) {
        Host::Word
    } else {
        Host::LongInt
    }
}

/// The predefined type that stores a subrange of a host; of an enumeration, that host itself.
pub fn storage_of(host: Host, low: i32, high: i32) -> Host
    ensures { result ≡ storage_of host low high }
{
    match host {
        Host::Char | Host::Boolean | Host::Enumeration => host,
        _ => integer_storage(low, high),
    }
}

/// How many values lie between two bounds, both included.
pub(crate) fn count_between(low: i32, high: i32) -> u64
    ensures value { result ≡ count_between low high }
    ensures bound { result ≤ 2 ^ 32 }
{
    u64::from(high.abs_diff(low)) + 1
}

/// The bytes of a set of `low..high`.
pub(crate) fn set_bytes(low: i32, high: i32) -> u64
    ensures { result ≡ set_bytes low high }
{
    u64::from((high.unsigned_abs() / 8).saturating_sub(low.unsigned_abs() / 8)) + 1
}
