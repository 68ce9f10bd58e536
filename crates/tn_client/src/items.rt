//! Takes the items that came at a client end.

ghost use Rattle.std.specs.Prelude.{◌≡◌, ◌≢◌, ◌⊎◌, ◌≤◌, ◌++◌, ℕ, ◌==◌, ◌&&◌, Some, None, [], length};
ghost use Rattle.std.specs.Prelude.{if◌then◌else◌, OnOk, OnErr};
ghost use Rattle.tn_codes.specs.OptionCodes as option_code;
ghost use Rattle.tn_codes.specs.declared.payloads.Payload.TheVariants as payload;
ghost use Rattle.tn_nvt.specs.Spelling.{spells};
ghost use Rattle.tn_nvt.specs.declared.items.Item.TheVariants as item;
ghost use Rattle.tn_client.specs.{Terms.{linemode, changes, tells_size, payload_at}, Replies.new_size_items};
ghost use Rattle.tn_client.specs.{Screen.item_shown, Calls.ReadsList};
ghost use Rattle.tn_client.specs.Steps.{MayWantMemory, with_mode, end_handed_over, end_taken_over, says_mode};
ghost use Rattle.tn_client.specs.Steps.{end_after_item, says_got, end_after_payload, says_sub};
ghost use Rattle.tn_linemode.specs.{Prefixes.AppendsPrefix, Words.payload_items};
ghost use Rattle.tn_codes.specs.Payloads.{IsShort, max_triples};

use crate::end::ClientEnd;
use crate::screen::{show_byte, show_new_line};
use crate::sending::put_bytes;
use std::alloc::AllocError;
use tn_codes::{Mask, Payload, Triples, Verb};
use tn_linemode::{ClientMode, put_list, put_mode, put_payload, put_word, read_under};
use tn_nvt::{Item, Params};
use tn_option::{Engine, LINEMODE, NAWS, Side};

impl ClientEnd {
    /// Takes an item. After a refusal the end is not used again.
    pub(crate) fn item(
        &mut self,
        item: Item,
        out: &mut Vec<u8>,
        screen: &mut Vec<u8>,
    ) -> Result<(), AllocError>
        ensures ok { OnOk result (self.new ≡ end_after_item self.old item) }
        ensures out { OnOk result (out.new.items ≡ out.old.items ++ spells (says_got self.old item)) }
        ensures screen { OnOk result (screen.new.items ≡ screen.old.items ++ item_shown item) }
        ensures cut { OnErr result (AppendsPrefix (says_got self.old item) out.old.items out.new.items) }
        ensures err { OnErr result (screen.new.items ≡ screen.old.items) }
        ensures grows { OnErr result (MayWantMemory self.old item) }
    {
        match item {
            Item::Byte(byte) => show_byte(byte, screen),
            Item::Newline => show_new_line(screen),
            Item::Cmd(_) => Ok(()),
            Item::Neg(verb, option) => self.word(verb, option, out),
            Item::Sub(option, params) => self.subnegotiation(option, &params, out),
        }
    }

    // Sends the bytes that are held, if EDIT ends with this mode.
    fn put_held(&self, mode: ClientMode, out: &mut Vec<u8>) -> Result<(), AllocError>
        ensures ok { OnOk result (out.new.items ≡ out.old.items ++ spells (says_mode self.now mode)) }
        ensures err { OnErr result (out.new.items ≡ out.old.items) }
        ensures grows { OnErr result (says_mode self.now mode ≢ []) }
    {
        if self.mode.current().edit() && !mode.current().edit() {
            return put_bytes(self.line.held(), out);
        }
        Ok(())
    }

    // Takes a mode, after the held bytes were sent.
    fn set_mode(&mut self, mode: ClientMode)
        ensures { self.new ≡ with_mode self.old mode }
    {
        match (self.mode.current().edit(), mode.current().edit()) {
            (true, false) => self.hand_over(),
            (false, true) => self.take_over(mode.current().trapsig()),
            (true, true) | (false, false) => {},
        }
        self.mode = mode;
    }

    // Hands the half-typed line over to the server, which has all bytes of it and edits it from
    // then on.
    fn hand_over(&mut self)
        ensures { self.new ≡ end_handed_over self.old }
    {
        let length = self.line.length();
        let _effect = self.line.kill();
        self.trapped = length;
        self.plain = length;
    }

    // Takes the half-typed line over from the server, which has all bytes that were typed of it, by
    // this ISIG. The client edits it from then on.
    fn take_over(&mut self, isig: bool)
        ensures { self.new ≡ end_taken_over self.old isig }
    {
        let length = if isig { self.trapped } else { self.plain };
        let _effect = self.line.kill();
        self.line.resume(length);
        self.trapped = 0;
        self.plain = 0;
    }

    // Answers an option message, and sends all that follows from it.
    fn word(&mut self, verb: Verb, option: u8, out: &mut Vec<u8>) -> Result<(), AllocError>
        ensures ok { OnOk result (self.new ≡ end_after_item self.old (item.Neg verb option)) }
        ensures out { OnOk result
            (out.new.items ≡ out.old.items ++ spells (says_got self.old (item.Neg verb option))) }
        ensures cut { OnErr result
            (AppendsPrefix (says_got self.old (item.Neg verb option)) out.old.items out.new.items) }
        ensures grows { OnErr result (says_got self.old (item.Neg verb option) ≢ []) }
    {
        let mut options = self.options;
        let said = options.got(verb, option);
        let mode = self.mode_with(&options);
        let forward = self.forward_with(&options);
        self.put_held(mode, out)?;
        put_word(said, out)?;
        self.put_size_on(options.is_on(Side::Us, NAWS), out)?;
        self.options = options;
        self.forward = forward;
        self.set_mode(mode);
        Ok(())
    }

    // Returns the mode once the options are these: LINEMODE begins and ends without a mode.
    fn mode_with(&self, options: &Engine) -> ClientMode
        ensures { result ≡ (if changes self.now.options options.now then 0 else self.now.mode) }
    {
        let mut mode = self.mode;
        if self.options.is_on(Side::Us, LINEMODE) != options.is_on(Side::Us, LINEMODE) {
            mode.reset();
        }
        mode
    }

    // Returns the forward mask once the options are these: LINEMODE begins and ends without one.
    fn forward_with(&self, options: &Engine) -> Option<Mask>
        ensures { result ≡ (if changes self.now.options options.now then None else self.now.forward) }
    {
        if self.options.is_on(Side::Us, LINEMODE) != options.is_on(Side::Us, LINEMODE) {
            return None;
        }
        self.forward
    }

    // Sends the size if NAWS came on.
    fn put_size_on(&self, is_on: bool, out: &mut Vec<u8>) -> Result<(), AllocError>
        ensures ok { let size : ℕ × ℕ = (self.now.width, self.now.height) in
            let says = new_size_items (tells_size self.now.options) is_on size in
            OnOk result (out.new.items ≡ out.old.items ++ spells says) }
        ensures err { OnErr result (out.new.items ≡ out.old.items) }
        ensures grows { let size : ℕ × ℕ = (self.now.width, self.now.height) in
            OnErr result (new_size_items (tells_size self.now.options) is_on size ≢ []) }
    {
        if is_on && !self.options.is_on(Side::Us, NAWS) {
            return self.put_size(self.width, self.height, out);
        }
        Ok(())
    }

    /// Takes a subnegotiation. After a refusal the end is not used again.
    pub(crate) fn subnegotiation(
        &mut self,
        option: u8,
        params: &Params,
        out: &mut Vec<u8>,
    ) -> Result<(), AllocError>
        ensures ok { let payload = payload_at self.old.options (item.Sub option params.now) in
            OnOk result (self.new ≡ end_after_payload self.old payload) }
        ensures out { let payload = payload_at self.old.options (item.Sub option params.now) in
            OnOk result (out.new.items ≡ out.old.items ++ spells (says_sub self.old payload)) }
        ensures cut { let payload = payload_at self.old.options (item.Sub option params.now) in
            OnErr result (AppendsPrefix (says_sub self.old payload) out.old.items out.new.items) }
        ensures grows { let sub = item.Sub option params.now in OnErr result
            ((says_sub self.old (payload_at self.old.options sub) ≢ []) ⊎ ReadsList self.old.options sub) }
    {
        match read_under(self.alloc, self.is_read(option), option, params)? {
            Some(Payload::Mode(mask)) => self.mode_got(mask, out),
            Some(Payload::Slc(triples)) => self.list(&triples, out),
            Some(Payload::ForwardOn(mask)) => {
                self.forward_got(Some(mask), &Payload::ForwardYes, out)
            },
            Some(Payload::ForwardOff) => self.forward_got(None, &Payload::ForwardNo, out),
            Some(
                Payload::Naws {
                    width: _,
                    height: _,
                }
                | Payload::ForwardYes
                | Payload::ForwardNo,
            )
            | None => Ok(()),
        }
    }

    // Returns whether payloads of this option are read: it is LINEMODE, and on.
    fn is_read(&self, option: u8) -> bool
        ensures { result ≡ ((option == option_code.linemode) && linemode self.now.options) }
    {
        option == LINEMODE && self.options.is_on(Side::Us, LINEMODE)
    }

    // Takes a MODE of the server.
    fn mode_got(&mut self, mask: u8, out: &mut Vec<u8>) -> Result<(), AllocError>
        ensures ok { OnOk result (self.new ≡ end_after_payload self.old (Some (payload.Mode mask))) }
        ensures out { OnOk result
            (out.new.items ≡ out.old.items ++ spells (says_sub self.old (Some (payload.Mode mask)))) }
        ensures cut { OnErr result
            (AppendsPrefix (says_sub self.old (Some (payload.Mode mask))) out.old.items out.new.items) }
        ensures grows { OnErr result (says_sub self.old (Some (payload.Mode mask)) ≢ []) }
    {
        let mut mode = self.mode;
        let answer = mode.got(mask);
        self.put_held(mode, out)?;
        put_mode(answer, out)?;
        self.set_mode(mode);
        Ok(())
    }

    // Takes a forward mask of the server, or the message that there is none any more, and answers
    // it.
    fn forward_got(
        &mut self,
        forward: Option<Mask>,
        answer: &Payload,
        out: &mut Vec<u8>,
    ) -> Result<(), AllocError>
        requires { IsShort answer.now }
        ensures ok { OnOk result (self.new ≡ record self.old { forward = forward }) }
        ensures out { OnOk result (out.new.items ≡ out.old.items ++ spells (payload_items answer.now)) }
        ensures err { OnErr result (out.new.items ≡ out.old.items) }
    {
        put_payload(answer, out)?;
        self.forward = forward;
        Ok(())
    }

    // Answers a list of local characters in one list.
    fn list(&mut self, triples: &Triples, out: &mut Vec<u8>) -> Result<(), AllocError>
        requires { length triples.now ≤ max_triples }
        ensures ok { OnOk result (self.new ≡ end_after_payload self.old (Some (payload.Slc triples.now))) }
        ensures out { OnOk result
            (out.new.items ≡ out.old.items ++ spells (says_sub self.old (Some (payload.Slc triples.now)))) }
        ensures cut { OnErr result
            (AppendsPrefix (says_sub self.old (Some (payload.Slc triples.now))) out.old.items out.new.items) }
        ensures grows { OnErr result (triples.now ≢ []) }
    {
        let mut table = self.table;
        let mut answers = Vec::new(self.alloc);
        table.got(triples.as_slice(), &mut answers)?;
        put_list(&answers, out)?;
        self.table = table;
        Ok(())
    }
}
