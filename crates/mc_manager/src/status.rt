ghost use Rattle.std.specs.Prelude.{◌≡◌, []};
ghost use Rattle.mc_manager.specs.CommandDue.{RepliesWith};
ghost use Rattle.mc_manager.specs.Status.{word_of};

use mc_apdu::Reply;

/// The outcome of a command of the manager, as a status word of ISO/IEC 7816-4.
#[derive(Clone, Copy, Debug, PartialEq, Eq)]
pub enum Status {
    Done,
    /// The length of the data is wrong.
    WrongLength,
    /// Conditions of use not satisfied.
    Conditions,
    /// Wrong data.
    WrongData,
    /// The name is not on the card.
    NotFound,
    /// The card has 32 applications already, or no room for the sizes.
    NoRoom,
    /// Wrong P1 P2.
    WrongParameters,
    /// The name is on the card already.
    Exists,
    /// The INS is not supported.
    NoInstruction,
    /// The CLA is not supported.
    NoClass,
}

impl Status {
    /// Returns the status word of ISO/IEC 7816-4.
    pub fn word(self) -> u16
        ensures { result ≡ word_of self }
    {
        match self {
            Status::Done => 0x9000,
            Status::WrongLength => 0x6700,
            Status::Conditions => 0x6985,
            Status::WrongData => 0x6A80,
            Status::NotFound => 0x6A82,
            Status::NoRoom => 0x6A84,
            Status::WrongParameters => 0x6A86,
            Status::Exists => 0x6A89,
            Status::NoInstruction => 0x6D00,
            Status::NoClass => 0x6E00,
        }
    }

    /// Makes `reply` this status word without data.
    pub fn say(self, reply: &mut Reply)
        ensures { RepliesWith [] (word_of self) reply.new }
    {
        reply.body.clear();
        reply.sw = self.word();
    }
}
