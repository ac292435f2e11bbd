//! A store behind a switch that makes one of its calls fail. Nothing is proved of what it holds: tests read that from the store behind.
ghost use Rattle.std.specs.Prelude.{◌≡◌, ◌||◌, true, Err};
ghost use Rattle.desk_store.specs.Calls.{IsOfCalls, IsOfReading, fault_in, is_disk, is_not_a_desk};
ghost use Rattle.desk_cli.specs.steps.Unsound.{unsound};

use desk_store::{Counts, EntryTexts, Keeper, Looks, StoreFault};
use duty_core::Span;
use radio_core::{Band, Eui, Name};
use registry_core::{
    Booking, Config, Device, Effect, Envelope, NearBooking, Reception, Role, Session, Uplink,
};
use std::alloc::Global;

/// How a call fails.
#[derive(Clone, Copy, PartialEq, Eq)]
pub(crate) enum Failure {
    /// An allocation fails.
    Memory,
    /// The disk fails before the call has done anything, and each later call fails so.
    Disk,
    /// The disk fails once the call has done all, and each later call fails so.
    DiskAfter,
    /// What is stored turns out not to be a desk.
    NotADesk,
}

impl Failure {
    /// What the call returns.
    pub(crate) fn fault(self) -> StoreFault {
        match self {
            Failure::Memory => StoreFault::Memory,
            Failure::Disk | Failure::DiskAfter => StoreFault::Disk,
            Failure::NotADesk => StoreFault::NotADesk,
        }
    }

    /// Whether each later call fails too.
    pub(crate) fn stays(self) -> bool {
        matches!(self, Failure::Disk | Failure::DiskAfter)
    }
}

/// A store whose one call fails.
#[derive(Drop)]
pub(crate) struct Switched<K: Keeper> {
    /// The store behind the switch.
    pub(crate) inner: Box<K>,
    failure: Failure,
    /// This many calls pass before the one that fails; none where it has failed.
    calls: Option<u64>,
    is_failed: bool,
    is_not_a_desk: bool,
    /// Whether the call that failed had committed a message.
    pub(crate) has_committed: bool,
}

impl<K: Keeper> Switched<K> {
    /// The store; after this many calls the next one fails.
    pub(crate) fn new(inner: Box<K>, failure: Failure, calls: u64) -> Switched<K> {
        Switched {
            inner,
            failure,
            calls: Some(calls),
            is_failed: false,
            is_not_a_desk: false,
            has_committed: false,
        }
    }

    /// Whether a call has failed.
    pub(crate) fn has_failed(&self) -> bool {
        self.calls.is_none()
    }

    /// Counts a call. An error where it fails before it has done anything.
    fn turn(&mut self) -> Result<(), StoreFault>
        ensures inner { self.new.inner ≡ self.old.inner }
        ensures shut { self.new.is_failed ≡ is_disk (fault_in result) || self.old.is_failed }
        ensures not_a_desk_now { self.new.is_not_a_desk ≡ is_not_a_desk (fault_in result) || self.old.is_not_a_desk }
        ensures reading { IsOfReading (fault_in result) }
        ensures told { IsOfCalls (fault_in result) }
        ensures failed { self.old.is_failed ≡ true → result ≡ Err StoreFault.Disk }
    {
        if self.is_failed {
            return Err(StoreFault::Disk);
        }
        match self.calls {
            None => Ok(()),
            Some(0) => self.fail(),
            Some(calls) => {
                self.calls = Some(calls - 1);
                Ok(())
            }
        }
    }

    /// The call fails.
    fn fail(&mut self) -> Result<(), StoreFault>
        ensures inner { self.new.inner ≡ self.old.inner }
        ensures shut { self.new.is_failed ≡ is_disk (fault_in result) || self.old.is_failed }
        ensures not_a_desk_now { self.new.is_not_a_desk ≡ is_not_a_desk (fault_in result) || self.old.is_not_a_desk }
        ensures reading { IsOfReading (fault_in result) }
        ensures told { IsOfCalls (fault_in result) }
    {
        self.calls = None;
        match self.failure {
            Failure::Memory => Err(StoreFault::Memory),
            Failure::Disk | Failure::DiskAfter => {
                self.is_failed = true;
                Err(StoreFault::Disk)
            }
            Failure::NotADesk => {
                self.is_not_a_desk = true;
                Err(StoreFault::NotADesk)
            }
        }
    }

    /// Notes how a call of the store behind ended, and passes it on.
    fn noted<T: Drop>(&mut self, answer: Result<T, StoreFault>) -> Result<T, StoreFault>
        ensures answer { result ≡ answer }
        ensures inner { self.new.inner ≡ self.old.inner }
        ensures shut { self.new.is_failed ≡ is_disk (fault_in answer) || self.old.is_failed }
        ensures not_a_desk_now { self.new.is_not_a_desk ≡ is_not_a_desk (fault_in answer) || self.old.is_not_a_desk }
    {
        match &answer {
            Err(StoreFault::Disk) => self.is_failed = true,
            Err(StoreFault::NotADesk) => self.is_not_a_desk = true,
            _ => {}
        }
        answer
    }
}

/// A call of the store behind, unless it is its turn to fail.
macro_rules! in_turn {
    ($store:expr, $call:expr) => {{
        $store.turn()?;
        let answer = $call;
        $store.noted(answer)
    }};
}

impl<K: Keeper> Looks for Switched<K> {
    // It is never sound, so that no clause on values speaks of it.
    ghost meaning = { unsound (λ k. K.meaning.configuration k.inner.value) (λ k. k.is_failed) (λ k. k.is_not_a_desk) };

    fn config(&self) -> &Config {
        self.inner.config()
    }

    fn alloc(&self) -> Global {
        self.inner.alloc()
    }

    #[tactic(auto, using(crate::proofs::Unsound::read_by))]
    fn role_of(&mut self, name: &Name) -> Result<Option<Role>, StoreFault> {
        in_turn!(self, self.inner.role_of(name))
    }

    #[tactic(auto, using(crate::proofs::Unsound::read_by))]
    fn texts_of(&mut self, envelope: &Envelope) -> Result<Option<EntryTexts>, StoreFault> {
        in_turn!(self, self.inner.texts_of(envelope))
    }

    #[tactic(auto, using(crate::proofs::Unsound::read_by))]
    fn entry(&mut self, number: u64) -> Result<Option<EntryTexts>, StoreFault> {
        in_turn!(self, self.inner.entry(number))
    }

    #[tactic(auto, using(crate::proofs::Unsound::read_by))]
    fn has_owner(&mut self, name: &Name) -> Result<bool, StoreFault> {
        in_turn!(self, self.inner.has_owner(name))
    }

    #[tactic(auto, using(crate::proofs::Unsound::read_by))]
    fn has_gateway(&mut self, name: &Name) -> Result<bool, StoreFault> {
        in_turn!(self, self.inner.has_gateway(name))
    }

    #[tactic(auto, using(crate::proofs::Unsound::read_by))]
    fn device(&mut self, dev_eui: Eui) -> Result<Option<Device>, StoreFault> {
        in_turn!(self, self.inner.device(dev_eui))
    }

    #[tactic(auto, using(crate::proofs::Unsound::read_by))]
    fn last_nonce(&mut self, device: Eui) -> Result<Option<u16>, StoreFault> {
        in_turn!(self, self.inner.last_nonce(device))
    }

    #[tactic(auto, using(crate::proofs::Unsound::read_by))]
    fn session(&mut self, number: u64) -> Result<Option<Session>, StoreFault> {
        in_turn!(self, self.inner.session(number))
    }

    #[tactic(auto, using(crate::proofs::Unsound::read_by))]
    fn last_counter(&mut self, session: u64) -> Result<Option<u32>, StoreFault> {
        in_turn!(self, self.inner.last_counter(session))
    }

    #[tactic(auto, using(crate::proofs::Unsound::read_by))]
    fn is_below_floor(&mut self, device: Eui, session: u64) -> Result<bool, StoreFault> {
        in_turn!(self, self.inner.is_below_floor(device, session))
    }

    #[tactic(auto, using(crate::proofs::Unsound::read_by))]
    fn join_with(&mut self, device: Eui, nonce: u16) -> Result<Option<(u64, Uplink)>, StoreFault> {
        in_turn!(self, self.inner.join_with(device, nonce))
    }

    #[tactic(auto, using(crate::proofs::Unsound::read_by))]
    fn data_with(
        &mut self,
        session: u64,
        counter: u32,
    ) -> Result<Option<(u64, Uplink)>, StoreFault> {
        in_turn!(self, self.inner.data_with(session, counter))
    }

    #[tactic(auto, using(crate::proofs::Unsound::read_by))]
    fn uplink(&mut self, number: u64) -> Result<Option<Uplink>, StoreFault> {
        in_turn!(self, self.inner.uplink(number))
    }

    #[tactic(auto, using(crate::proofs::Unsound::read_by))]
    fn reception_at(
        &mut self,
        uplink: u64,
        gateway: &Name,
    ) -> Result<Option<Reception>, StoreFault> {
        in_turn!(self, self.inner.reception_at(uplink, gateway))
    }

    #[tactic(auto, using(crate::proofs::Unsound::read_by))]
    fn is_answered(&mut self, uplink: u64) -> Result<bool, StoreFault> {
        in_turn!(self, self.inner.is_answered(uplink))
    }

    #[tactic(auto, using(crate::proofs::Unsound::read_by))]
    fn next_down(&mut self, session: u64) -> Result<u64, StoreFault> {
        in_turn!(self, self.inner.next_down(session))
    }

    #[tactic(auto, using(crate::proofs::Unsound::read_by))]
    fn booking(&mut self, number: u64) -> Result<Option<Booking>, StoreFault> {
        in_turn!(self, self.inner.booking(number))
    }

    #[tactic(auto, using(crate::proofs::Unsound::read_by))]
    fn near(&mut self, gateway: &Name, start: u64) -> Result<Vec<NearBooking>, StoreFault> {
        in_turn!(self, self.inner.near(gateway, start))
    }

    #[tactic(auto, using(crate::proofs::Unsound::read_by))]
    fn limit_of(&mut self, gateway: &Name, band: Band) -> Result<u64, StoreFault> {
        in_turn!(self, self.inner.limit_of(gateway, band))
    }

    #[tactic(auto, using(crate::proofs::Unsound::read_by))]
    fn counts(&mut self) -> Result<Counts, StoreFault> {
        in_turn!(self, self.inner.counts())
    }

    #[tactic(auto, using(crate::proofs::Unsound::read_by))]
    fn next_device(&mut self, owner: &Name, after: Option<Eui>) -> Result<Option<Eui>, StoreFault> {
        in_turn!(self, self.inner.next_device(owner, after))
    }

    #[tactic(auto, using(crate::proofs::Unsound::read_by))]
    fn uplinks_of(
        &mut self,
        device: Eui,
        band: Band,
        from: i64,
        to: i64,
    ) -> Result<Vec<Span>, StoreFault> {
        in_turn!(self, self.inner.uplinks_of(device, band, from, to))
    }

    #[tactic(auto, using(crate::proofs::Unsound::read_by))]
    fn bookings_of(&mut self, gateway: &Name, band: Band) -> Result<Vec<Span>, StoreFault> {
        in_turn!(self, self.inner.bookings_of(gateway, band))
    }

    #[tactic(auto, using(crate::proofs::Unsound::read_by))]
    fn senders(&mut self) -> Result<Vec<Name>, StoreFault> {
        in_turn!(self, self.inner.senders())
    }

    #[tactic(auto, using(crate::proofs::Unsound::read_by))]
    fn owners(&mut self) -> Result<Vec<Name>, StoreFault> {
        in_turn!(self, self.inner.owners())
    }

    #[tactic(auto, using(crate::proofs::Unsound::read_by))]
    fn gateways(&mut self) -> Result<Vec<Name>, StoreFault> {
        in_turn!(self, self.inner.gateways())
    }

    #[tactic(auto, using(crate::proofs::Unsound::read_by))]
    fn devices(&mut self) -> Result<Vec<Eui>, StoreFault> {
        in_turn!(self, self.inner.devices())
    }

    #[tactic(auto, using(crate::proofs::Unsound::read_by))]
    fn sessions_of(&mut self, device: Eui) -> Result<Vec<u64>, StoreFault> {
        in_turn!(self, self.inner.sessions_of(device))
    }

    #[tactic(auto, using(crate::proofs::Unsound::read_by))]
    fn last_start(&mut self, session: u64) -> Result<Option<u64>, StoreFault> {
        in_turn!(self, self.inner.last_start(session))
    }

    #[tactic(auto, using(crate::proofs::Unsound::read_by))]
    fn last_transaction(&mut self, sender: &Name) -> Result<Option<u64>, StoreFault> {
        in_turn!(self, self.inner.last_transaction(sender))
    }

    #[tactic(auto, using(crate::proofs::Unsound::read_by))]
    fn uplinks_between(&mut self, device: Eui, from: i64, to: i64) -> Result<Vec<u64>, StoreFault> {
        in_turn!(self, self.inner.uplinks_between(device, from, to))
    }

    #[tactic(auto, using(crate::proofs::Unsound::read_by))]
    fn gateways_of(&mut self, uplink: u64) -> Result<Vec<Name>, StoreFault> {
        in_turn!(self, self.inner.gateways_of(uplink))
    }

    #[tactic(auto, using(crate::proofs::Unsound::read_by))]
    fn bookings_between(
        &mut self,
        gateway: &Name,
        from: i64,
        to: i64,
    ) -> Result<Vec<u64>, StoreFault> {
        in_turn!(self, self.inner.bookings_between(gateway, from, to))
    }
}

impl<K: Keeper> Keeper for Switched<K> {
    ghost own = { λ k kept sound. absurd sound };

    ghost one = { λ k a b sound. absurd sound };

    ghost common = { λ k a b sound. absurd sound };

    fn commit(
        &mut self,
        envelope: &Envelope,
        message: &[u8],
        effect: &Effect,
        answer: &[u8],
    ) -> Result<(), StoreFault> {
        let fails_after = self.failure == Failure::DiskAfter && self.calls == Some(0);
        if fails_after && !self.is_failed {
            let answer = self.inner.commit(envelope, message, effect, answer);
            self.noted(answer)?;
            self.has_committed = true;
            return self.fail();
        }
        in_turn!(self, self.inner.commit(envelope, message, effect, answer))
    }
}
