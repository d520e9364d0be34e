// Associated data, text, and the end of an operation, which makes the tag or compares it.
ghost use Rattle.std.specs.{Prelude.◌≡◌, Prelude.◌≤◌, Prelude.◌<◌, Prelude.◌+◌, Prelude.◌^◌, Prelude.◌++◌, Prelude.[], Prelude.◌∷◌, Prelude.Bool, Prelude.not, Prelude.true, Prelude.false, Prelude.IfOk, Prelude.OnOk, Prelude.bytes_eq, Prelude.length, Prelude.take, Result.result_err};
ghost use Rattle.psa_status.specs.{declared.Status.TheVariants.InvalidSignature, Rows.first_row};
ghost use Rattle.store_model.specs.Prelude.{tag_bytes, buffer_after, given, reply_unless, room_rows, total_limit, whole_rows, work_tag, AeadWork, aead_due, aead_fresh, aead_update_rows, is_past_payload, is_whole_ad, is_whole_payload, update_ad_rows, with_payload};
ghost use Rattle.aead_states.specs.{Holding.HoldsAead, Counted.aead_text_rows, Counted.with_begun_text};

use crate::declared::{is_past_ad, is_past_payload, is_whole_ad, is_whole_payload};
use crate::lengths::is_past_limit;
use crate::running::RunningAead;
use multipart::{give_front, is_front};
use psa_status::Status;

impl RunningAead {
    // Takes in more associated data.
    pub(crate) fn update_ad(&mut self, input: &[u8]) -> Result<(), Status>
        ensures refusal { (w : AeadWork) → HoldsAead self.old w →
            result_err result ≡ first_row (update_ad_rows w input.now) }
        ensures holds { (w : AeadWork) → HoldsAead self.old w → OnOk result (HoldsAead self.new (record w { ad = w.ad ++ input.now })) }
    {
        if !self.has_nonce || self.has_text {
            return Err(Status::BadState);
        }
        let total = self.ad + input.len() as u64;
        if is_past_ad(self.lengths, total) || is_past_limit(total) {
            return Err(Status::InvalidArgument);
        }
        self.parts.update_ad(self.aead.kind, &self.key, input);
        self.ad = total;
        Ok(())
    }

    // How many bytes of text there are after so many more.
    fn counted_text(&self, more: usize) -> Result<u64, Status>
        requires { more < 2 ^ 63 }
        ensures refusal { (w : AeadWork) → HoldsAead self.now w →
            result_err result ≡ first_row (aead_text_rows w more) }
        ensures total { IfOk result (λ n. n ≡ self.now.text + more) }
        ensures limit { IfOk result (λ n. n ≤ total_limit) }
        ensures nonce { OnOk result (self.now.has_nonce ≡ true) }
    {
        if !self.has_nonce {
            return Err(Status::BadState);
        }
        let total = self.text + more as u64;
        if !is_whole_ad(self.lengths, self.ad)
            || is_past_payload(self.lengths, total)
            || is_past_limit(total)
        {
            return Err(Status::InvalidArgument);
        }
        Ok(total)
    }

    // Ends the associated data where no text was given.
    pub(crate) fn begin_text(&mut self)
        requires { self.old.has_nonce ≡ true }
        ensures nonce { self.new.has_nonce ≡ true }
        ensures text { self.new.has_text ≡ true }
        ensures count { self.new.text ≡ self.old.text }
        ensures holds { (w : AeadWork) → HoldsAead self.old w → is_whole_ad w.lengths (length w.ad) ≡ true →
            HoldsAead self.new (with_begun_text w) }
    {
        if !self.has_text {
            self.parts.begin_text(self.aead.kind, &self.key);
            self.has_text = true;
        }
    }

    // Writes the next part of the text, enciphered or deciphered, to the front of a buffer, and answers its length.
    pub(crate) fn update(&mut self, input: &[u8], out: &mut [u8]) -> Result<usize, Status>
        ensures refusal { (w : AeadWork) → HoldsAead self.old w →
            result_err result ≡ first_row (aead_update_rows w input.now (length out.old)) }
        ensures length { (w : AeadWork) → HoldsAead self.old w →
            IfOk result (λ n. n ≡ length (aead_fresh w (with_payload w input.now))) }
        ensures buffer { (w : AeadWork) → HoldsAead self.old w → out.new ≡
            buffer_after out.old (reply_unless (first_row (aead_update_rows w input.now (length out.old))) (given (aead_fresh w (with_payload w input.now)))) }
        ensures holds { (w : AeadWork) → HoldsAead self.old w →
            OnOk result (HoldsAead self.new (with_payload w input.now)) }
    {
        let total = self.counted_text(input.len())?;
        if out.len() < input.len() {
            return Err(Status::BufferTooSmall);
        }
        self.begin_text();
        self.xor_into(input, total, &mut out[..input.len()]);
        Ok(input.len())
    }

    // Fills a buffer with the next part of the text, enciphered or deciphered, by how many bytes there are with it.
    fn xor_into(&mut self, input: &[u8], total: u64, out: &mut [u8])
        requires nonce { self.old.has_nonce ≡ true }
        requires text { self.old.has_text ≡ true }
        requires total { total ≡ self.old.text + length input.now }
        requires limit { total ≤ total_limit }
        requires room { length out.old ≡ length input.now }
        ensures due { (w : AeadWork) → HoldsAead self.old w → is_past_payload w.lengths total ≡ false
            → aead_due (with_payload w input.now) ≡ aead_due w ++ out.new }
        ensures holds { (w : AeadWork) → HoldsAead self.old w → is_past_payload w.lengths total ≡ false
            → HoldsAead self.new (with_payload w input.now) }
    {
        out.copy_from_slice(input);
        self.parts
            .xor(self.encrypts, self.aead.kind, &self.key, out);
        self.text = total;
    }

    // The refusals of a finish: `is_direction` says whether the text is encrypted, or decrypted, as the finish asks.
    fn check_whole(&self, is_direction: bool) -> Result<(), Status>
        ensures refusal { (w : AeadWork) → HoldsAead self.now w →
            result_err result ≡ first_row (whole_rows w is_direction) }
        ensures nonce { OnOk result (self.now.has_nonce ≡ true) }
    {
        if !(is_direction && self.has_nonce) {
            return Err(Status::BadState);
        }
        if !(is_whole_ad(self.lengths, self.ad) && is_whole_payload(self.lengths, self.text)) {
            return Err(Status::InvalidArgument);
        }
        Ok(())
    }

    fn tag_length(&self) -> usize
        requires { self.now.has_nonce ≡ true }
        ensures value { result ≡ self.now.aead.tag_length }
        ensures bound { result ≤ 16 }
    {
        usize::from(self.aead.tag_length)
    }

    // The whole tag, of which the algorithm's is the front.
    fn whole_tag(&mut self) -> [u8; 16]
        requires { self.old.has_nonce ≡ true }
        ensures { (w : AeadWork) → HoldsAead self.old w → is_whole_ad w.lengths (length w.ad) ≡ true
            → is_whole_payload w.lengths (length w.text) ≡ true → take (tag_bytes w.alg) result ≡ work_tag w }
    {
        self.begin_text();
        self.parts
            .tag(self.aead.kind, &self.key, self.ad, self.text)
    }

    // Writes the tag to the front of a buffer, and answers its length.
    pub(crate) fn finish(&mut self, out: &mut [u8]) -> Result<usize, Status>
        ensures refusal { (w : AeadWork) → HoldsAead self.old w →
            result_err result ≡ first_row (whole_rows w w.encrypts ++ room_rows (tag_bytes w.alg) (length out.old)) }
        ensures length { (w : AeadWork) → HoldsAead self.old w → IfOk result (λ n. n ≡ length (work_tag w)) }
        ensures buffer { (w : AeadWork) → HoldsAead self.old w → out.new ≡
            buffer_after out.old (reply_unless (first_row (whole_rows w w.encrypts ++ room_rows (tag_bytes w.alg) (length out.old))) (given (work_tag w))) }
    {
        self.check_whole(self.encrypts)?;
        let length = self.tag_length();
        let mut whole = self.whole_tag();
        give_front(&mut whole, length, out)
    }

    // Compares the whole tag.
    pub(crate) fn verify(&mut self, tag: &[u8]) -> Result<(), Status>
        ensures { (w : AeadWork) → HoldsAead self.old w → result_err result ≡
            first_row (whole_rows w (not w.encrypts) ++ (not (bytes_eq tag.now (work_tag w)), InvalidSignature) ∷ []) }
    {
        self.check_whole(!self.encrypts)?;
        let length = self.tag_length();
        let mut whole = self.whole_tag();
        if is_front(tag, &mut whole, length) {
            Ok(())
        } else {
            Err(Status::InvalidSignature)
        }
    }
}
