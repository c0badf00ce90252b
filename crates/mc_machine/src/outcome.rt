// How turns and chains end.
ghost use Rattle.std.specs.Prelude.{◌≡◌, ◌≤◌, ℕ, min, option_map, take, Some, None, IfSome};
ghost use Rattle.law_machine.specs.model_machine.specs.Frame.{la_of, sw_of};
ghost use Rattle.law_machine.specs.model_card.specs.Commands.{status};
ghost use Rattle.mc_machine.specs.declared.outcome.Outcome.TheVariants as outcome;
ghost use Rattle.mc_machine.specs.declared.outcome.End.TheVariants as end;
ghost use Rattle.mc_machine.specs.Turns.{end_outcome, end_value, full_turn, last_end, outcome_by, outcome_value};
ghost use Rattle.mc_machine.specs.Turns.{AgreesWithEnd, EndFits, IsReply};

use crate::chain::Chain;
use arrayvec::ArrayVec;
use mc_apdu::Reply;
use mc_arith::Flags;
use mc_isa::Ins;
use mc_segs::{Abend, Frame, Public};

/// How a command to an application ends: with its reply, or by an abend.
#[derive(Clone, Debug, Drop)]
pub enum Outcome {
    Reply(Reply),
    Abend(Abend),
}

impl Outcome {
    /// Returns the reply 9000 without data.
    pub fn done() -> Outcome
        // It is a reply.
        ensures reply { IsReply result }
        // Its status is 9000, and it has no data.
        ensures value { outcome_value result ≡ status 0x9000 }
    {
        Outcome::Reply(Reply {
            body: ArrayVec::new(),
            sw: 0x9000,
        })
    }

    /// Makes this outcome the reply 9000 without data. A reply is changed in place.
    pub fn put_done(&mut self)
        // It is a reply.
        ensures reply { IsReply self.new }
        // Its status is 9000, and it has no data.
        ensures value { outcome_value self.new ≡ status 0x9000 }
    {
        match self {
            Outcome::Reply(reply) => {
                reply.body.clear();
                reply.sw = 0x9000;
            }
            Outcome::Abend(_) => self.replace_by_done(),
        }
    }

    // Replaces an abend by the reply 9000. The place of a new reply is cleared by the function that makes it,
    // so this is a call of its own.
    #[cold]
    #[inline(never)]
    fn replace_by_done(&mut self)
        ensures reply { IsReply self.new }
        ensures value { outcome_value self.new ≡ status 0x9000 }
    {
        *self = Outcome::done();
    }

    /// Makes this outcome an abend.
    // It is a call of its own because the place of the new outcome is cleared where it is made.
    #[cold]
    #[inline(never)]
    pub fn put_abend(&mut self, abend: Abend)
        ensures { self.new ≡ outcome.Abend abend }
    {
        *self = Outcome::Abend(abend);
    }
}

/// One executed instruction, or a fetch that ends the chain: the depth of its frame from 1 to 4, the code
/// address it was at, the instruction, which is missing exactly after a fetch that abends with 01, 02 or 07,
/// DT and the flags of the frame after it, or before it if the chain ends by an abend, and the chain's end if
/// this turn ends it.
#[derive(Clone, Debug, Drop)]
pub struct Turn {
    pub depth: u8,
    pub at: u16,
    pub ins: Option<Ins>,
    pub dt: u16,
    pub flags: Flags,
    pub end: Option<Outcome>,
}

/// A turn without the bytes of its reply: as `Turn`, but of a reply it says only that the chain ends with it. The reply
/// is in the public segment of the chain, or in the place that it was written to.
#[derive(Clone, Copy, Debug)]
pub struct BriefTurn {
    pub depth: u8,
    pub at: u16,
    pub ins: Option<Ins>,
    pub dt: u16,
    pub flags: Flags,
    pub end: Option<End>,
}

impl BriefTurn {
    /// Returns this turn with `outcome` as the outcome of its end, if it has one.
    pub fn with_outcome(self, outcome: Outcome) -> Turn
        ensures { result ≡ full_turn self outcome }
    {
        let end = match self.end {
            Some(_) => Some(outcome),
            None => None,
        };
        Turn {
            depth: self.depth,
            at: self.at,
            ins: self.ins,
            dt: self.dt,
            flags: self.flags,
            end,
        }
    }
}

/// The end of a command to an application. Its reply is kept elsewhere: in the public segment, or in the
/// place that it was written to.
#[derive(Clone, Copy, Debug, PartialEq, Eq)]
pub enum End {
    Reply,
    Abend(Abend),
}

// The record of a turn, without its place.
#[derive(Clone, Copy, Debug)]
pub struct Step {
    pub ins: Option<Ins>,
    pub dt: u16,
    pub flags: Flags,
    pub end: Option<End>,
}

impl Step {
    /// Returns this record with `abend` as its end.
    pub fn abends(self, abend: Abend) -> Step
        ensures { result ≡ record self { end = Some (End.Abend abend) } }
    {
        Step {
            end: Some(End::Abend(abend)),
            ..self
        }
    }
}

/// Returns the record of a turn with the present registers of a frame.
pub fn reported(frame: &Frame, ins: Option<Ins>, end: Option<End>) -> Step
    ensures { result ≡ record {
      ins = ins;
      dt = frame.now.frame.dt;
      flags = record { c = frame.now.frame.c; z = frame.now.frame.z };
      end = end;
    } }
{
    Step {
        ins,
        dt: frame.dt(),
        flags: Flags {
            c: frame.c(),
            z: frame.z(),
        },
        end,
    }
}

/// Returns La, the length of the reply's data.
pub fn la(public: &Public) -> u16
    ensures { result ≡ la_of public.now }
{
    let bytes = public.bytes();
    bytes[1037] as u16 * 256 + bytes[1038] as u16
}

// Returns SW, the status of the reply.
fn sw(public: &Public) -> u16
    ensures { result ≡ sw_of public.now }
{
    let bytes = public.bytes();
    bytes[1039] as u16 * 256 + bytes[1040] as u16
}

/// Returns how the exit of a chain's first frame ends it: 09 if its reply would be too long.
// It is called once a command, so no turn makes room for it.
#[inline(never)]
pub fn last_exit(public: &Public) -> End
    ensures value { result ≡ last_end public.now }
    ensures fits { EndFits public.now result }
{
    if la(public) > 1024 {
        End::Abend(Abend::A09)
    } else {
        End::Reply
    }
}

// Returns the reply in a public segment.
fn reply_in(public: &Public, le: u16) -> Reply
    requires { la_of public.now ≤ 1024 }
    ensures body { result.body.items ≡ take (min (la_of public.now) le) public.now }
    ensures sw { result.sw ≡ sw_of public.now }
{
    let mut reply = Reply {
        body: ArrayVec::new(),
        sw: 0,
    };
    put_reply(public, le, &mut reply);
    reply
}

// Replaces a reply by the one in a public segment.
fn put_reply(public: &Public, le: u16, reply: &mut Reply)
    requires { la_of public.now ≤ 1024 }
    ensures body { reply.new.body.items ≡ take (min (la_of public.now) le) public.now }
    ensures sw { reply.new.sw ≡ sw_of public.now }
{
    let count = la(public).min(le) as usize;
    reply.body.clear();
    reply
        .body
        .try_extend_from_slice(&public.bytes()[..count])
        .unwrap();
    reply.sw = sw(public);
}

// Replaces an abend by the reply in a public segment.
#[cold]
#[inline(never)]
fn replace_by_reply(public: &Public, le: u16, into: &mut Outcome)
    requires { la_of public.now ≤ 1024 }
    ensures reply { IsReply into.new }
    ensures value { outcome_value into.new ≡ end_value public.now le end.Reply }
{
    *into = Outcome::Reply(reply_in(public, le));
}

// Makes an outcome the reply in a public segment. A reply is changed in place.
fn put_as_reply(public: &Public, le: u16, into: &mut Outcome)
    requires { la_of public.now ≤ 1024 }
    ensures reply { IsReply into.new }
    ensures value { outcome_value into.new ≡ end_value public.now le end.Reply }
{
    match into {
        Outcome::Reply(reply) => put_reply(public, le, reply),
        Outcome::Abend(_) => replace_by_reply(public, le, into),
    }
}

/// Replaces `reply` by the reply of an end, if it has one: the first bytes of the public segment, at most La
/// and Le, with the status.
pub fn put_end(public: &Public, le: u16, end: End, reply: &mut Reply)
    requires { EndFits public.now end }
    ensures { outcome_value (outcome_by end reply.new) ≡ end_value public.now le end }
{
    match end {
        End::Reply => put_reply(public, le, reply),
        End::Abend(_) => {}
    }
}

/// Returns the outcome of an end: the reply is the first bytes of the public segment, at most La and Le, with
/// the status.
pub fn final_outcome(public: &Public, le: u16, end: End) -> Outcome
    requires { EndFits public.now end }
    ensures { outcome_value result ≡ end_value public.now le end }
{
    match end {
        End::Reply => Outcome::Reply(reply_in(public, le)),
        End::Abend(abend) => Outcome::Abend(abend),
    }
}

impl Chain {
    /// Replaces `reply` by the reply of an end of the chain, if it has one.
    pub fn put_end(&self, end: End, reply: &mut Reply)
        requires { EndFits self.now.public end }
        ensures { outcome_value (outcome_by end reply.new) ≡ end_value self.now.public self.now.le end }
    {
        put_end(&self.public, self.le, end, reply);
    }

    /// Makes `into` the outcome of an end of the chain. A reply is changed in place.
    pub fn put_outcome(&self, end: End, into: &mut Outcome)
        requires { EndFits self.now.public end }
        ensures value { outcome_value into.new ≡ end_value self.now.public self.now.le end }
        ensures agrees { AgreesWithEnd (Some end) into.new }
    {
        match end {
            End::Reply => put_as_reply(&self.public, self.le, into),
            End::Abend(abend) => into.put_abend(abend),
        }
    }

    /// Makes `into` the outcome of a turn's end, if the turn ends the chain.
    pub(crate) fn put_end_of(&self, end: Option<End>, into: &mut Outcome)
        requires { IfSome end (λ end. EndFits self.now.public end) }
        ensures value { option_map outcome_value (end_outcome end into.new)
            ≡ option_map (end_value self.now.public self.now.le) end }
        ensures agrees { AgreesWithEnd end into.new }
    {
        match end {
            Some(end) => self.put_outcome(end, into),
            None => {}
        }
    }

    /// Returns the outcome of an end of the chain.
    pub fn outcome(&self, end: End) -> Outcome
        requires { EndFits self.now.public end }
        ensures { outcome_value result ≡ end_value self.now.public self.now.le end }
    {
        final_outcome(&self.public, self.le, end)
    }
}
