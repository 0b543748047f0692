//! The reader of a record's fields: `field_at` over bytes and a place, and above it `Reader`, which
//! goes from field to field, over each byte once.

ghost use Rattle.std.specs.Prelude.{◌≡◌, ◌≤◌, IfOk, OnOk, OnErr, ◌==◌, length};
ghost use Rattle.run_record.specs.Fields as Fields;
ghost use Rattle.run_record.specs.Form as Form;
ghost use Rattle.run_record.specs.Reads as Reads;

use crate::fields::{Field, HEAD_SIZE};
use refusal::Refusal;

// The payload of the field that is due at a place. Refuses: row 15, where that field is broken.
#[tactic(auto, using(crate::proofs::Forms::whole_fits))]
fn field_at(bytes: &[u8], start: usize, field: Field) -> Result<&[u8], Refusal>
    requires fits { length bytes.now ≤ Form.max_record }
    requires within { start ≤ length bytes.now }
    ensures payload { Reads.bytes_of result ≡ Reads.field_at bytes.now field start }
    ensures size { IfOk result (λ payload. length payload.now ≡ Fields.size field) }
{
    if is_whole(bytes, start, field) {
        let payload = start + HEAD_SIZE;
        Ok(&bytes[payload..payload + field.size()])
    } else {
        Err(Refusal::RecordForm {
            start: start as u32,
        })
    }
}

// Whether the field at a place has its tag and its size, and ends within the record
#[tactic(auto, unfolding(crate::specs::Form::is_whole))]
fn is_whole(bytes: &[u8], start: usize, field: Field) -> bool
    requires fits { length bytes.now ≤ Form.max_record }
    requires within { start ≤ length bytes.now }
    ensures { result ≡ Form.is_whole bytes.now (Fields.tag field) (Fields.size field) start }
{
    let size = field.size();
    start + HEAD_SIZE + size <= bytes.len()
        && bytes[start] == field.tag()
        && usize::from(u16::from_le_bytes([bytes[start + 1], bytes[start + 2]])) == size
}

// The bytes of a record that is not too long, and the place of the next field
#[derive(Drop)]
pub(crate) struct Reader<'a> {
    pub bytes: &'a [u8],
    pub at: usize,
    ghost fits: { length bytes.now ≤ Form.max_record },
    ghost within: { at ≤ length bytes.now },
}

impl<'a> Reader<'a> {
    ghost use Rattle.run_record.specs.Places as Places;

    // Whether no byte is left
    pub(crate) fn is_at_end(&self) -> bool
        ensures { result ≡ (self.now.at == (length self.now.bytes.now)) }
    {
        self.at == self.bytes.len()
    }

    // The payload of the field at the reader's place, behind which the reader goes on. Refuses: row
    // 15, where that field is broken; the reader then stays.
    #[tactic(auto, using(crate::proofs::Forms::field_fits))]
    pub(crate) fn next_field(&mut self, field: Field) -> Result<&'a [u8], Refusal>
        ensures payload { let reader = self.old in
            Reads.bytes_of result ≡ Reads.field_at reader.bytes.now field reader.at }
        ensures size { IfOk result (λ payload. length payload.now ≡ Fields.size field) }
        ensures behind { OnOk result (Places.MovesPast self.old self.new field) }
        ensures stays { OnErr result (self.new ≡ self.old) }
    {
        let payload = field_at(self.bytes, self.at, field)?;
        self.at += HEAD_SIZE + field.size();
        Ok(payload)
    }
}
