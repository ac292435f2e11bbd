//! The look-ups of the store, of one or two statements each, and the errors that they return.
ghost use Rattle.desk_tables.specs.Store.{meaning_of};

mod limits;
mod sessions;
mod texts;
mod uplinks;

use crate::seen::{seen_counter, seen_floor, seen_role, seen_session};
use crate::tables::Tables;
use desk_rows::order::{arranged_rows_tell, listed_rows_tell, orders_hold};
use desk_rows::{
    device_euis, gateway_is_known, gateway_names, owner_is_known, owner_names, sender_names,
};
use desk_store::{Counts, EntryTexts, Looks, StoreFault};
use duty_core::Span;
use radio_core::{Band, Eui, Name};
use registry_core::{
    Booking, Config, Device, Envelope, NearBooking, Reception, Role, Session, Uplink,
};
use sqlite::Alter;
use std::alloc::Global;

#[tactic(auto, using(crate::proofs::LookUps::answered_by_rows, crate::proofs::LookUps::answered_by_kept))]
impl<S: Alter> Looks for Tables<S> {
    ghost meaning = { meaning_of S.Store };

    fn config(&self) -> &Config {
        &self.config
    }

    fn alloc(&self) -> Global {
        self.alloc
    }

    fn role_of(&mut self, name: &Name) -> Result<Option<Role>, StoreFault> {
        self.working()?;
        if let Some(role) = self.seen.role_seen(name) {
            return Ok(Some(role));
        }
        let answer = desk_rows::role_of(&mut self.conn, name);
        match self.store_result(answer) {
            Ok(found) => {
                self.seen.role = seen_role(name, found);
                Ok(found)
            }
            Err(fault) => Err(fault),
        }
    }

    fn texts_of(&mut self, envelope: &Envelope) -> Result<Option<EntryTexts>, StoreFault> {
        self.working()?;
        let answer = texts::texts_of(&mut self.conn, envelope);
        self.store_result(answer)
    }

    fn entry(&mut self, number: u64) -> Result<Option<EntryTexts>, StoreFault> {
        self.working()?;
        let answer = texts::entry(&mut self.conn, number);
        self.store_result(answer)
    }

    fn has_owner(&mut self, name: &Name) -> Result<bool, StoreFault> {
        self.working()?;
        let answer = owner_is_known(&mut self.conn, name);
        self.store_result(answer)
    }

    fn has_gateway(&mut self, name: &Name) -> Result<bool, StoreFault> {
        self.working()?;
        let answer = gateway_is_known(&mut self.conn, name);
        self.store_result(answer)
    }

    fn device(&mut self, dev_eui: Eui) -> Result<Option<Device>, StoreFault> {
        self.working()?;
        let answer = desk_rows::device(&mut self.conn, dev_eui);
        self.store_result(answer)
    }

    fn last_nonce(&mut self, device: Eui) -> Result<Option<u16>, StoreFault> {
        self.working()?;
        let answer = desk_rows::last_nonce(&mut self.conn, device);
        self.store_result(answer)
    }

    fn session(&mut self, number: u64) -> Result<Option<Session>, StoreFault> {
        self.working()?;
        let answer = sessions::session(&mut self.conn, number);
        match self.store_result(answer) {
            Ok(found) => {
                self.seen.session = seen_session(number, &found);
                Ok(found)
            }
            Err(fault) => Err(fault),
        }
    }

    fn last_counter(&mut self, session: u64) -> Result<Option<u32>, StoreFault> {
        self.working()?;
        let answer = sessions::last_counter(&mut self.conn, session);
        match self.store_result(answer) {
            Ok(found) => {
                self.seen.counter = seen_counter(session, found);
                Ok(found)
            }
            Err(fault) => Err(fault),
        }
    }

    fn is_below_floor(&mut self, device: Eui, session: u64) -> Result<bool, StoreFault> {
        self.working()?;
        let answer = sessions::is_below_floor(&mut self.conn, device, session);
        match self.store_result(answer) {
            Ok(found) => {
                self.seen.floor = seen_floor(device, found.1);
                Ok(found.0)
            }
            Err(fault) => Err(fault),
        }
    }

    fn join_with(&mut self, device: Eui, nonce: u16) -> Result<Option<(u64, Uplink)>, StoreFault> {
        self.working()?;
        let answer = uplinks::join_with(&mut self.conn, device, nonce);
        self.store_result(answer)
    }

    fn data_with(
        &mut self,
        session: u64,
        counter: u32,
    ) -> Result<Option<(u64, Uplink)>, StoreFault> {
        self.working()?;
        if self.seen.is_after(session, counter) {
            return Ok(None);
        }
        let answer = sessions::data_with(&mut self.conn, session, counter);
        self.store_result(answer)
    }

    fn uplink(&mut self, number: u64) -> Result<Option<Uplink>, StoreFault> {
        self.working()?;
        let answer = uplinks::uplink(&mut self.conn, number);
        self.store_result(answer)
    }

    fn reception_at(
        &mut self,
        uplink: u64,
        gateway: &Name,
    ) -> Result<Option<Reception>, StoreFault> {
        self.working()?;
        let answer = uplinks::reception_at(&mut self.conn, uplink, gateway);
        self.store_result(answer)
    }

    fn is_answered(&mut self, uplink: u64) -> Result<bool, StoreFault> {
        self.working()?;
        let answer = uplinks::is_answered(&mut self.conn, uplink);
        self.store_result(answer)
    }

    fn next_down(&mut self, session: u64) -> Result<u64, StoreFault> {
        self.working()?;
        let answer = sessions::next_down(&mut self.conn, session);
        self.store_result(answer)
    }

    fn booking(&mut self, number: u64) -> Result<Option<Booking>, StoreFault> {
        self.working()?;
        let answer = uplinks::booking(&mut self.conn, number);
        self.store_result(answer)
    }

    fn near(&mut self, gateway: &Name, start: u64) -> Result<Vec<NearBooking>, StoreFault> {
        self.working()?;
        arranged_rows_tell();
        orders_hold();
        let answer = desk_rows::near(self.alloc, &mut self.conn, gateway, start);
        self.store_result(answer)
    }

    fn limit_of(&mut self, gateway: &Name, band: Band) -> Result<u64, StoreFault> {
        self.working()?;
        let answer = limits::limit_of(&mut self.conn, gateway, band);
        self.store_result(answer)
    }

    fn counts(&mut self) -> Result<Counts, StoreFault> {
        self.working()?;
        Ok(self.counts)
    }

    fn next_device(&mut self, owner: &Name, after: Option<Eui>) -> Result<Option<Eui>, StoreFault> {
        self.working()?;
        arranged_rows_tell();
        orders_hold();
        let answer = desk_rows::next_device(&mut self.conn, owner, after);
        self.store_result(answer)
    }

    fn uplinks_of(
        &mut self,
        device: Eui,
        band: Band,
        from: i64,
        to: i64,
    ) -> Result<Vec<Span>, StoreFault> {
        self.working()?;
        arranged_rows_tell();
        orders_hold();
        let answer = desk_rows::uplinks_of(self.alloc, &mut self.conn, device, band, from, to);
        self.store_result(answer)
    }

    fn bookings_of(&mut self, gateway: &Name, band: Band) -> Result<Vec<Span>, StoreFault> {
        self.working()?;
        arranged_rows_tell();
        orders_hold();
        let answer = desk_rows::bookings_of(self.alloc, &mut self.conn, gateway, band);
        self.store_result(answer)
    }

    fn senders(&mut self) -> Result<Vec<Name>, StoreFault> {
        self.working()?;
        listed_rows_tell();
        let answer = sender_names(self.alloc, &mut self.conn);
        self.store_result(answer)
    }

    fn owners(&mut self) -> Result<Vec<Name>, StoreFault> {
        self.working()?;
        listed_rows_tell();
        let answer = owner_names(self.alloc, &mut self.conn);
        self.store_result(answer)
    }

    fn gateways(&mut self) -> Result<Vec<Name>, StoreFault> {
        self.working()?;
        listed_rows_tell();
        let answer = gateway_names(self.alloc, &mut self.conn);
        self.store_result(answer)
    }

    fn devices(&mut self) -> Result<Vec<Eui>, StoreFault> {
        self.working()?;
        listed_rows_tell();
        let answer = device_euis(self.alloc, &mut self.conn);
        self.store_result(answer)
    }

    fn sessions_of(&mut self, device: Eui) -> Result<Vec<u64>, StoreFault> {
        self.working()?;
        let answer = desk_rows::sessions_of(self.alloc, &mut self.conn, device);
        self.store_result(answer)
    }

    fn last_start(&mut self, session: u64) -> Result<Option<u64>, StoreFault> {
        self.working()?;
        let answer = sessions::last_start(&mut self.conn, session);
        self.store_result(answer)
    }

    fn uplinks_between(&mut self, device: Eui, from: i64, to: i64) -> Result<Vec<u64>, StoreFault> {
        self.working()?;
        listed_rows_tell();
        let answer = desk_rows::uplinks_between(self.alloc, &mut self.conn, device, from, to);
        self.store_result(answer)
    }

    fn gateways_of(&mut self, uplink: u64) -> Result<Vec<Name>, StoreFault> {
        self.working()?;
        let answer = uplinks::gateways_of(self.alloc, &mut self.conn, uplink);
        self.store_result(answer)
    }

    fn bookings_between(
        &mut self,
        gateway: &Name,
        from: i64,
        to: i64,
    ) -> Result<Vec<u64>, StoreFault> {
        self.working()?;
        listed_rows_tell();
        let answer = desk_rows::bookings_between(self.alloc, &mut self.conn, gateway, from, to);
        self.store_result(answer)
    }

    fn last_transaction(&mut self, sender: &Name) -> Result<Option<u64>, StoreFault> {
        self.working()?;
        let answer = desk_rows::last_transaction(&mut self.conn, sender);
        self.store_result(answer)
    }
}
