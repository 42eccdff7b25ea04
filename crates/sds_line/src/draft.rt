ghost use Rattle.std.specs.Prelude.{◌≡◌, ◌≢◌, ◌<◌, ◌++◌, ◌∷◌, [], Ok, Err, IfOk, IfErr, OnOk, OnErr, string_bytes};
ghost use Rattle.std.specs.Char.{IsScalar};
ghost use Rattle.std.specs.Str.{chars};
ghost use Rattle.sds_line.specs.Reading.{empty_line, with_byte, begun, gone_on, with_character, field_at, ended_line, is_inside, without_end_spacing};
ghost use Rattle.sds_line.specs.Splitting.{is_end, is_blank};
ghost use Rattle.sds_line.specs.Places.{is_spacing};
ghost use Rattle.sds_line.specs.Characters.{continues, next_of};

use crate::partial::{is_lead, lead_of, next_of, whole};
use crate::place::act_of;
use crate::{Act, LineRefusal, Partial, Place};
use sds_base::Txt;
use sds_value::Field;
use std::alloc::Global;
use std::marker::Model;
use std::mem;

/// For how many bytes the text of a field takes room at first, which spares most fields a second growth.
const FIRST_ROOM: usize = 24;

/// A line of which a front has come.
#[derive(Debug, Drop)]
pub(crate) struct Draft {
    place: Place,
    partial: Partial,
    /// The characters of the field that has not ended.
    text: String,
    /// The fields before it.
    fields: Vec<Field>,
}

impl Model for Draft {
    ghost use Rattle.std.specs.Prelude.{string_bytes};
    ghost use Rattle.std.specs.Str.{chars};
    ghost use Rattle.sds_line.specs.Reading.{HalfLine};
    ghost use Rattle.sds_line.specs.Characters.{HasRoom};

    ghost Value = { HalfLine };

    ghost view = { λ d. record { place = d.place; partial = d.partial; text = chars (string_bytes d.text); fields = d.fields.items } };

    ghost invariant = { λ d. HasRoom d.partial };
}

impl Draft {
    /// A line before its first byte.
    pub(crate) fn new(alloc: Global) -> Draft
        ensures { result ≡ empty_line }
    {
        Draft {
            place: Place::Start,
            partial: whole(),
            text: String::new(alloc),
            fields: Vec::new(alloc),
        }
    }

    /// Takes the next byte of the line. A refusal leaves the line as it was.
    pub(crate) fn take(&mut self, byte: u8) -> Result<(), LineRefusal>
        ensures ok { OnOk result (with_byte self.old byte ≡ Ok self.new) }
        ensures err { IfErr result (λ refusal. refusal ≢ LineRefusal.NoMemory → (with_byte self.old byte ≡ Err refusal) × (self.new ≡ self.old)) }
    {
        if self.partial.wanted > 0 {
            return self.go_on(byte);
        }
        match act_of(self.place, byte) {
            Act::Pass(place) => {
                self.place = place;
                Ok(())
            }
            Act::Add(place) => self.begin(place, byte),
            Act::Divide => self.divide(),
            Act::Refuse(refusal) => Err(refusal),
        }
    }

    fn begin(&mut self, place: Place, byte: u8) -> Result<(), LineRefusal>
        ensures ok { OnOk result (begun self.old place byte ≡ Ok self.new) }
        ensures err { IfErr result (λ refusal. refusal ≢ LineRefusal.NoMemory → (begun self.old place byte ≡ Err refusal) × (self.new ≡ self.old)) }
    {
        if byte < 128 {
            return self.add(place, byte as char);
        }
        if !is_lead(byte) {
            return Err(LineRefusal::NotUtf8);
        }
        self.place = place;
        self.partial = lead_of(byte);
        Ok(())
    }

    fn go_on(&mut self, byte: u8) -> Result<(), LineRefusal>
        requires { 0 < self.old.partial.wanted }
        ensures ok { OnOk result (with_byte self.old byte ≡ Ok self.new) }
        ensures err { IfErr result (λ refusal. refusal ≢ LineRefusal.NoMemory → (with_byte self.old byte ≡ Err refusal) × (self.new ≡ self.old)) }
    {
        if byte < self.partial.low || byte > self.partial.high {
            return Err(LineRefusal::NotUtf8);
        }
        let next = next_of(self.partial, byte);
        if next.wanted > 0 {
            self.partial = next;
            return Ok(());
        }
        match char::from_u32(next.bits) {
            None => Err(LineRefusal::NotUtf8),
            Some(character) => {
                self.partial = whole();
                self.add(self.place, character)
            }
        }
    }

    fn add(&mut self, place: Place, character: char) -> Result<(), LineRefusal>
        ensures ok { OnOk result (self.new ≡ with_character place character self.old) }
        ensures err { IfErr result (λ refusal. refusal ≡ LineRefusal.NoMemory) }
    {
        if place != Place::Comment {
            push_character(&mut self.text, character)?;
        }
        self.place = place;
        Ok(())
    }

    fn divide(&mut self) -> Result<(), LineRefusal>
        ensures ok { OnOk result (self.new ≡ record self.old { place = Place.Before; text = []; fields = self.old.fields ++ field_at self.old.place self.old.text ∷ [] }) }
        ensures err { IfErr result (λ refusal. refusal ≡ LineRefusal.NoMemory) }
    {
        let alloc = *self.fields.allocator();
        let text = mem::replace(&mut self.text, String::new(alloc));
        self.fields.push(field_at(self.place, text)?)?;
        self.place = Place::Before;
        Ok(())
    }

    /// Whether the byte is a line feed that ends the line.
    pub(crate) fn is_end(&self, byte: u8) -> bool
        ensures { result ≡ is_end self.now byte }
    {
        byte == b'\n' && self.partial.wanted == 0 && !is_inside(self.place)
    }

    /// Whether a line that ends so is blank or a comment.
    pub(crate) fn is_blank(&self) -> bool
        ensures { result ≡ is_blank self.now }
    {
        self.partial.wanted == 0 && matches!(self.place, Place::Start | Place::Comment)
    }

    /// Ends the line, and begins the next one: the fields, or why it may not end so, which leaves it as it was.
    pub(crate) fn end(&mut self) -> Result<Vec<Field>, LineRefusal>
        ensures ok { IfOk result (λ fields. (ended_line self.old ≡ Ok fields.items) × (self.new ≡ empty_line)) }
        ensures err { IfErr result (λ refusal. refusal ≢ LineRefusal.NoMemory → (ended_line self.old ≡ Err refusal) × (self.new ≡ self.old)) }
    {
        if self.partial.wanted > 0 {
            return Err(LineRefusal::NotUtf8);
        }
        match self.place {
            Place::Quoted | Place::Escaped => Err(LineRefusal::OpenQuote),
            Place::Start | Place::Comment => {
                let fields = self.begin_anew();
                Ok(Vec::new(*fields.allocator()))
            }
            Place::Before | Place::Plain | Place::Behind => {
                self.divide()?;
                Ok(self.begin_anew())
            }
        }
    }

    /// Begins the next line, and gives the fields of this one.
    fn begin_anew(&mut self) -> Vec<Field>
        ensures fields { result.items ≡ self.old.fields }
        ensures anew { self.new ≡ empty_line }
    {
        let alloc = *self.fields.allocator();
        let anew = Draft::new(alloc);
        let Draft { fields, .. } = mem::replace(self, anew);
        fields
    }
}

fn is_inside(place: Place) -> bool
    ensures { result ≡ is_inside place }
{
    matches!(place, Place::Quoted | Place::Escaped)
}

/// The field that ends at a place.
fn field_at(place: Place, mut text: String) -> Result<Field, LineRefusal>
    ensures ok { IfOk result (λ field. field ≡ field_at place (chars (string_bytes text))) }
    ensures err { IfErr result (λ refusal. refusal ≡ LineRefusal.NoMemory) }
{
    match place {
        Place::Plain => {
            drop_end_spacing(&mut text)?;
            Ok(Field::Text(Txt::of(text)))
        }
        Place::Behind => Ok(Field::Text(Txt::of(text))),
        _ => Ok(Field::Null),
    }
}

fn push_character(text: &mut String, character: char) -> Result<(), LineRefusal>
    ensures ok { OnOk result (chars (string_bytes text.new) ≡ chars (string_bytes text.old) ++ character ∷ []) }
    ensures err { IfErr result (λ refusal. refusal ≡ LineRefusal.NoMemory) }
{
    make_room(text)?;
    text.push(character)?;
    Ok(())
}

/// Takes room for the first bytes of a text at once.
fn make_room(text: &mut String) -> Result<(), LineRefusal>
    ensures ok { OnOk result (string_bytes text.new ≡ string_bytes text.old) }
    ensures err { IfErr result (λ refusal. refusal ≡ LineRefusal.NoMemory) }
{
    if text.capacity() == 0 {
        text.reserve(FIRST_ROOM)?;
    }
    Ok(())
}

fn drop_end_spacing(text: &mut String) -> Result<(), LineRefusal>
    ensures ok { OnOk result (chars (string_bytes text.new) ≡ without_end_spacing (chars (string_bytes text.old))) }
    ensures err { IfErr result (λ refusal. refusal ≡ LineRefusal.NoMemory) }
{
    while let Some(last) = text.pop() {
        if !is_spacing(last) {
            return push_character(text, last);
        }
    }
    Ok(())
}

fn is_spacing(character: char) -> bool
    ensures answer { result ≡ is_spacing character }
    ensures scalar { IsScalar character }
{
    character == ' ' || character == '\t' || character == '\r'
}
