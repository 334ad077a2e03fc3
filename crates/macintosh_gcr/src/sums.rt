ghost use Rattle.std.specs.Prelude.{◌≡◌, ◌%◌, ◌<◌};
ghost use Rattle.macintosh_gcr.specs.Coding.{NO_SUMS, a_sum, after_three, after_two, b_sum, c_sum, check_values};
ghost use Rattle.macintosh_gcr.specs.Coding.{stored_first, stored_second, stored_third, turned};

/// The three sums that run over the bytes of a data field, eight bits each.
#[derive(Clone, Copy, Debug)]
pub(crate) struct Sums {
    pub(crate) a: u8,
    pub(crate) b: u8,
    pub(crate) c: u8,
}

impl Sums {
    /// The sums before the first byte.
    pub(crate) const NONE: Sums = Sums { a: 0, b: 0, c: 0 };

    /// The first byte of a group as it is stored, or back: it is exclusive-or the turned sum `a`.
    pub(crate) fn stored_first(self, first: u8) -> u8
        ensures stored { result ≡ stored_first self first }
        ensures fits { result < 256 }
    {
        first ^ turned(self.a)
    }

    /// The second byte as it is stored, or back, after the plain first one.
    pub(crate) fn stored_second(self, first: u8, second: u8) -> u8
        ensures stored { result ≡ stored_second self first second }
        ensures fits { result < 256 }
    {
        second ^ low_byte(self.c_sum(first))
    }

    /// The third byte as it is stored, or back, after the plain first and second one.
    pub(crate) fn stored_third(self, first: u8, second: u8, third: u8) -> u8
        ensures stored { result ≡ stored_third self first second third }
        ensures fits { result < 256 }
    {
        third ^ low_byte(self.b_sum(first, second))
    }

    /// The sums after a group of two bytes.
    pub(crate) fn after_two(self, first: u8, second: u8) -> Sums
        ensures { result ≡ after_two self first second }
    {
        Sums {
            a: turned(self.a),
            b: low_byte(self.b_sum(first, second)),
            c: low_byte(self.c_sum(first)),
        }
    }

    /// The sums after a group of three bytes.
    pub(crate) fn after_three(self, first: u8, second: u8, third: u8) -> Sums
        ensures { result ≡ after_three self first second third }
    {
        Sums {
            a: low_byte(self.a_sum(first, second, third)),
            b: low_byte(self.b_sum(first, second)),
            c: low_byte(self.c_sum(first)),
        }
    }

    /// The four check values of these sums, six bits each.
    pub(crate) fn check_values(self) -> [u8; 4]
        ensures { result ≡ check_values self }
    {
        [
            self.a / 64 + 4 * (self.b / 64) + 16 * (self.c / 64),
            self.c % 64,
            self.b % 64,
            self.a % 64,
        ]
    }

    fn c_sum(self, first: u8) -> u16
        ensures sum { result ≡ c_sum self first }
        ensures few { result < 512 }
    {
        u16::from(self.c) + u16::from(first) + u16::from(self.a / 128)
    }

    fn b_sum(self, first: u8, second: u8) -> u16
        ensures sum { result ≡ b_sum self first second }
        ensures few { result < 512 }
    {
        u16::from(self.b) + u16::from(second) + self.c_sum(first) / 256
    }

    fn a_sum(self, first: u8, second: u8, third: u8) -> u16
        ensures sum { result ≡ a_sum self first second third }
        ensures few { result < 512 }
    {
        u16::from(turned(self.a)) + u16::from(third) + self.b_sum(first, second) / 256
    }
}

/// A byte turned left by one bit.
fn turned(byte: u8) -> u8
    ensures { result ≡ turned byte }
{
    2 * (byte % 128) + byte / 128
}

/// The low eight bits of a sum.
fn low_byte(sum: u16) -> u8
    ensures { result ≡ sum % 256 }
{
    (sum % 256) as u8
}
