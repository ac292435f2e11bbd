//! Writes a JSON object member by member.
ghost use Rattle.std.specs.Prelude.{◌≡◌, IfOk, OnOk};
ghost use Rattle.json.specs.Print.{print};
ghost use Rattle.desk_wire.specs.Hexadecimal.{octet_digits, eui_digits, addr_digits};
ghost use Rattle.desk_wire.specs.steps.Texts.{opened, then_text, then_number, then_boolean, then_number_or_null, then_version_and_receiver, then_opened, then_closed};

use crate::hexadecimal::{addr_digits, eui_digits, octet_digits};
use json::Writer;
use radio_core::{DevAddr, Eui, Name, Octets};
use std::alloc::{AllocError, Global};
use std::marker::Model;

/// The capacity of a new text, in octets. Most messages and answers are shorter, and the text grows for a longer one.
const USUAL_LENGTH: usize = 384;

/// The text of an object, up to the last member that was written. Contracts see the list of its tokens, which begins with the opening
/// brace. A call that returns an error may have written a part of its member.
#[derive(Drop)]
pub(crate) struct ObjectText {
    out: Writer,
}

impl Model for ObjectText {
    ghost use Rattle.std.specs.Prelude.{◌≡◌, List, []};
    ghost use Rattle.json.specs.Token.{Token, tokens_code};

    ghost Value = { List Token };

    ghost coded = { tokens_code };

    ghost view = { λ o. o.out.tokens };

    ghost invariant = { λ o. o.out.before ≡ [] };
}

impl ObjectText {
    /// Returns an object with no members so far.
    pub(crate) fn new(alloc: Global) -> Result<Self, AllocError>
        ensures { IfOk result (λ object. object ≡ opened) }
    {
        let mut out = Writer::new(Vec::with_capacity(alloc, USUAL_LENGTH)?);
        out.begin_object()?;
        Ok(ObjectText { out })
    }

    #[tactic(auto, unfolding(crate::specs::steps::Texts::then_text))]
    pub(crate) fn text(&mut self, member: &str, text: &str) -> Result<(), AllocError>
        ensures { OnOk result (self.new ≡ then_text self.old member.now text.now) }
    {
        self.out.key(member)?;
        self.out.string(text)
    }

    #[tactic(auto, unfolding(crate::specs::steps::Texts::then_number))]
    pub(crate) fn number(&mut self, member: &str, n: u64) -> Result<(), AllocError>
        ensures { OnOk result (self.new ≡ then_number self.old member.now n) }
    {
        self.out.key(member)?;
        self.out.u64(n)
    }

    #[tactic(auto, unfolding(crate::specs::steps::Texts::then_boolean))]
    pub(crate) fn boolean(&mut self, member: &str, b: bool) -> Result<(), AllocError>
        ensures { OnOk result (self.new ≡ then_boolean self.old member.now b) }
    {
        self.out.key(member)?;
        self.out.boolean(b)
    }

    #[tactic(auto, unfolding(crate::specs::steps::Texts::then_number_or_null))]
    pub(crate) fn number_or_null(&mut self, member: &str, n: Option<u32>) -> Result<(), AllocError>
        ensures { OnOk result (self.new ≡ then_number_or_null self.old member.now n) }
    {
        self.out.key(member)?;
        match n {
            Some(n) => self.out.u64(u64::from(n)),
            None => self.out.null(),
        }
    }

    pub(crate) fn octets(
        &mut self,
        alloc: Global,
        member: &str,
        octets: &Octets,
    ) -> Result<(), AllocError>
        ensures { OnOk result (self.new ≡ then_text self.old member.now (octet_digits octets.now)) }
    {
        self.text(member, octet_digits(alloc, octets.get())?.as_str())
    }

    pub(crate) fn eui(&mut self, alloc: Global, member: &str, eui: Eui) -> Result<(), AllocError>
        ensures { OnOk result (self.new ≡ then_text self.old member.now (eui_digits eui)) }
    {
        self.text(member, eui_digits(alloc, eui)?.as_str())
    }

    pub(crate) fn addr(
        &mut self,
        alloc: Global,
        member: &str,
        addr: DevAddr,
    ) -> Result<(), AllocError>
        ensures { OnOk result (self.new ≡ then_text self.old member.now (addr_digits addr)) }
    {
        self.text(member, addr_digits(alloc, addr)?.as_str())
    }

    /// Writes ProtocolVersion and ReceiverID, which follow one another in every message and every answer with a head.
    pub(crate) fn version_and_receiver(&mut self, receiver: &Name) -> Result<(), AllocError>
        ensures { OnOk result (self.new ≡ then_version_and_receiver self.old receiver.now) }
    {
        self.text("ProtocolVersion", "1.0")?;
        self.text("ReceiverID", receiver.as_str())
    }

    /// Begins a member that is an object. The next calls write its members, and `end` ends it.
    #[tactic(auto, unfolding(crate::specs::steps::Texts::then_opened))]
    pub(crate) fn begin(&mut self, member: &str) -> Result<(), AllocError>
        ensures { OnOk result (self.new ≡ then_opened self.old member.now) }
    {
        self.out.key(member)?;
        self.out.begin_object()
    }

    /// Ends the innermost object that has not ended yet.
    #[tactic(auto, unfolding(crate::specs::steps::Texts::then_closed))]
    pub(crate) fn end(&mut self) -> Result<(), AllocError>
        ensures { OnOk result (self.new ≡ then_closed self.old) }
    {
        self.out.end_object()
    }

    /// Returns the octets that were written.
    pub(crate) fn into_text(self) -> Vec<u8>
        ensures { result.items ≡ print self }
    {
        self.out.into_inner()
    }
}
