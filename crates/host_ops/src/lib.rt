// The host in a handler, in the place of the Rust's `ops` and `rng`: one method for each function of PairingOps and for
// each draw. Each lists its call, reads the answer where the trace has read to, and moves behind it.
#![tactic(auto)]

ghost use Rattle.std.specs.Prelude.{◌≡◌};
ghost use Rattle.host_calls.specs.Calls.{no_trace};
ghost use Rattle.host_calls.specs.declared.call.Question.TheVariants as question;
ghost use Rattle.host_calls.specs.declared.call.Draw.TheVariants as draw;
ghost use Rattle.host_calls.specs.declared.call.Call.TheVariants as call;
ghost use Rattle.host_ops.specs.declared.Halt.TheVariants as halt;
ghost use Rattle.host_ops.specs.Run.{answer_to};
ghost use Rattle.host_ops.specs.Asked.{ran_answer, ran_result, ran_delivery, told, asked};

use bond::{Address, BondInformation, Error};
use crypto::{IdentityResolvingKey, LongTermKey, Nonce};
use host_answers::{Answer, Stop, read_answer};
use host_calls::{Call, ConnectionEvent, Draw, Packet, Question, Trace};
use smp_types::PassKey;

// Why a handler goes no further: the Rust's Err of `?`, or no answer.
#[derive(Clone, Copy, PartialEq, Eq)]
pub enum Halt {
    Failed(Error),
    Stop(Stop),
}

impl From<Error> for Halt {
    ghost from_gives = { λ error h. h ≡ halt.Failed error };

    fn from(error: Error) -> Halt {
        Halt::Failed(error)
    }
}

impl From<Stop> for Halt {
    ghost from_gives = { λ stop h. h ≡ halt.Stop stop };

    fn from(stop: Stop) -> Halt {
        Halt::Stop(stop)
    }
}

// What a step has done so far, and the answers that it was given.
// Each function says that the answers stay: a ghost field cannot speak of the value before.
// A handler takes the host and the machine apart, as the Rust's take `ops` and the pairing data.
#[derive(Drop)]
pub struct Ops<'a> {
    pub trace: Trace,
    pub answers: &'a [u8],
}

impl<'a> Ops<'a> {
    pub fn new(answers: &'a [u8]) -> Ops<'a>
        ensures trace { result.trace ≡ no_trace }
        ensures answers { result.answers ≡ answers.entry }
    {
        Ops {
            trace: Trace::default(),
            answers,
        }
    }

    // One more call, and its answer, behind which the trace then has read.
    fn ask<T: Answer<N>, const N: usize>(&mut self, call: Call) -> Result<T, Stop>
        ensures ran { ran_answer self.new.trace result
            ≡ asked T.said N call self.old.answers.now self.old.trace }
        ensures answers { self.new.answers ≡ self.old.answers }
    {
        let at = self.trace.read;
        self.trace.push(call);
        let answer = read_answer::<T, N>(self.answers, at, call.kind())?;
        self.trace.read = at + 1 + N;
        Ok(answer)
    }

    // A call that is answered by a verdict alone.
    #[tactic(auto, unfolding(host_answers::specs::Answers::verdict_at))]
    fn tell(&mut self, call: Call) -> Result<(), Halt>
        ensures ran { ran_delivery self.new.trace result
            ≡ told call self.old.answers.now self.old.trace }
        ensures answers { self.new.answers ≡ self.old.answers }
    {
        let done: Result<(), Error> = self.ask(call)?;
        Ok(done?)
    }

    #[tactic(auto, unfolding(crate::specs::Run::answer_to))]
    pub fn try_send_packet(&mut self, packet: Packet) -> Result<(), Halt>
        ensures ran { ran_delivery self.new.trace result
            ≡ answer_to (call.SendPacket packet) self.old.answers.now self.old.trace }
        ensures answers { self.new.answers ≡ self.old.answers }
    {
        self.tell(Call::SendPacket(packet))
    }

    // Whether there is a bond.
    #[tactic(auto, unfolding(crate::specs::Run::answer_to, host_answers::specs::Answers::flag_at))]
    pub fn find_bond(&mut self) -> Result<bool, Stop>
        ensures ran { ran_answer self.new.trace result
            ≡ answer_to (call.Ask question.FindBond) self.old.answers.now self.old.trace }
        ensures answers { self.new.answers ≡ self.old.answers }
    {
        self.ask(Call::Ask(Question::FindBond))
    }

    #[tactic(auto, unfolding(crate::specs::Run::answer_to, host_answers::specs::Answers::bonded_at))]
    pub fn try_enable_bonded_encryption(&mut self) -> Result<Option<BondInformation>, Halt>
        ensures ran { ran_result self.new.trace result
            ≡ answer_to call.EnableBondedEncryption self.old.answers.now self.old.trace }
        ensures answers { self.new.answers ≡ self.old.answers }
    {
        let bond: Result<Option<BondInformation>, Error> = self.ask(Call::EnableBondedEncryption)?;
        Ok(bond?)
    }

    // Not bonded: EDIV and Rand are zero.
    // The level is a number: the host may give any octet.
    #[tactic(auto, unfolding(crate::specs::Run::answer_to, host_answers::specs::Answers::encryption_at))]
    pub fn try_enable_encryption(
        &mut self,
        ltk: LongTermKey,
        security_level: u8,
        encryption_key_len: u8,
    ) -> Result<BondInformation, Halt>
        ensures ran { ran_result self.new.trace result
            ≡ answer_to
            (call.EnableEncryption ltk security_level encryption_key_len)
            self.old.answers.now self.old.trace }
        ensures answers { self.new.answers ≡ self.old.answers }
    {
        let call = Call::EnableEncryption {
            ltk,
            security_level,
            encryption_key_len,
        };
        let bond: Result<BondInformation, Error> = self.ask(call)?;
        Ok(bond?)
    }

    #[tactic(auto, unfolding(crate::specs::Run::answer_to))]
    pub fn try_update_bond_information(&mut self, bond: BondInformation) -> Result<(), Halt>
        ensures ran { ran_delivery self.new.trace result
            ≡ answer_to (call.UpdateBondInformation bond) self.old.answers.now self.old.trace }
        ensures answers { self.new.answers ≡ self.old.answers }
    {
        self.tell(Call::UpdateBondInformation(bond))
    }

    #[tactic(auto, unfolding(crate::specs::Run::answer_to))]
    pub fn try_send_connection_event(&mut self, event: ConnectionEvent) -> Result<(), Halt>
        ensures ran { ran_delivery self.new.trace result
            ≡ answer_to (call.SendConnectionEvent event) self.old.answers.now self.old.trace }
        ensures answers { self.new.answers ≡ self.old.answers }
    {
        self.tell(Call::SendConnectionEvent(event))
    }

    // Whether the host wishes to bond.
    #[tactic(auto, unfolding(crate::specs::Run::answer_to, host_answers::specs::Answers::flag_at))]
    pub fn bonding_flag(&mut self) -> Result<bool, Stop>
        ensures ran { ran_answer self.new.trace result
            ≡ answer_to (call.Ask question.BondingFlag) self.old.answers.now self.old.trace }
        ensures answers { self.new.answers ≡ self.old.answers }
    {
        self.ask(Call::Ask(Question::BondingFlag))
    }

    // Whether OOB data is available for this connection.
    #[tactic(auto, unfolding(crate::specs::Run::answer_to, host_answers::specs::Answers::flag_at))]
    pub fn oob_available(&mut self) -> Result<bool, Stop>
        ensures ran { ran_answer self.new.trace result
            ≡ answer_to (call.Ask question.OobAvailable) self.old.answers.now self.old.trace }
        ensures answers { self.new.answers ≡ self.old.answers }
    {
        self.ask(Call::Ask(Question::OobAvailable))
    }

    // The local Identity Resolving Key; all zeros where there is none.
    #[tactic(auto, unfolding(crate::specs::Run::answer_to, host_answers::specs::Answers::irk_at))]
    pub fn local_irk(&mut self) -> Result<IdentityResolvingKey, Stop>
        ensures ran { ran_answer self.new.trace result
            ≡ answer_to (call.Ask question.LocalIrk) self.old.answers.now self.old.trace }
        ensures answers { self.new.answers ≡ self.old.answers }
    {
        self.ask(Call::Ask(Question::LocalIrk))
    }

    // The local identity address, which may be another than the one used in pairing.
    #[tactic(auto, unfolding(crate::specs::Run::answer_to, host_answers::specs::Answers::address_at))]
    pub fn local_identity_address(&mut self) -> Result<Address, Halt>
        ensures ran { ran_result self.new.trace result
            ≡ answer_to (call.Ask question.LocalIdentityAddress) self.old.answers.now self.old.trace }
        ensures answers { self.new.answers ≡ self.old.answers }
    {
        let call = Call::Ask(Question::LocalIdentityAddress);
        let address: Result<Address, Error> = self.ask(call)?;
        Ok(address?)
    }

    // Mrand or Srand; never zero.
    #[tactic(auto, unfolding(crate::specs::Run::answer_to, host_answers::specs::Answers::nonce_at))]
    pub fn draw_nonce(&mut self) -> Result<Nonce, Stop>
        ensures ran { ran_answer self.new.trace result
            ≡ answer_to (call.Draw draw.Nonce) self.old.answers.now self.old.trace }
        ensures answers { self.new.answers ≡ self.old.answers }
    {
        self.ask(Call::Draw(Draw::Nonce))
    }

    #[tactic(auto, unfolding(crate::specs::Run::answer_to, host_answers::specs::Answers::pass_key_at))]
    pub fn draw_passkey(&mut self) -> Result<PassKey, Stop>
        ensures ran { ran_answer self.new.trace result
            ≡ answer_to (call.Draw draw.PassKey) self.old.answers.now self.old.trace }
        ensures answers { self.new.answers ≡ self.old.answers }
    {
        self.ask(Call::Draw(Draw::PassKey))
    }

    #[tactic(auto, unfolding(crate::specs::Run::answer_to, host_answers::specs::Answers::ltk_at))]
    pub fn draw_ltk(&mut self) -> Result<LongTermKey, Stop>
        ensures ran { ran_answer self.new.trace result
            ≡ answer_to (call.Draw draw.LongTermKey) self.old.answers.now self.old.trace }
        ensures answers { self.new.answers ≡ self.old.answers }
    {
        self.ask(Call::Draw(Draw::LongTermKey))
    }

    #[tactic(auto, unfolding(crate::specs::Run::answer_to, host_answers::specs::Answers::ediv_at))]
    pub fn draw_ediv(&mut self) -> Result<u16, Stop>
        ensures ran { ran_answer self.new.trace result
            ≡ answer_to (call.Draw draw.Ediv) self.old.answers.now self.old.trace }
        ensures answers { self.new.answers ≡ self.old.answers }
    {
        self.ask(Call::Draw(Draw::Ediv))
    }

    #[tactic(auto, unfolding(crate::specs::Run::answer_to, host_answers::specs::Answers::rand_at))]
    pub fn draw_rand(&mut self) -> Result<u64, Stop>
        ensures ran { ran_answer self.new.trace result
            ≡ answer_to (call.Draw draw.Rand) self.old.answers.now self.old.trace }
        ensures answers { self.new.answers ≡ self.old.answers }
    {
        self.ask(Call::Draw(Draw::Rand))
    }
}
