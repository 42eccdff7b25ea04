//! What a document gives, listed row by row.
ghost use Rattle.std.specs.Prelude.{◌≡◌};

use sds_base::{List, NoMemory, Twin, Txt};
use sds_batchtext::Reader;
use sds_line::put_fields;
use sds_types::{BatchDoc, End};
use sds_value::{Binary, DocRow, Event, Field};
use std::alloc::Global;

/// What a document gives, line by line.
#[derive(Drop)]
pub(crate) struct Listing {
    alloc: Global,
    text: Vec<u8>,
}

impl Listing {
    pub(crate) fn new(alloc: Global) -> Listing {
        Listing {
            alloc,
            text: Vec::new(alloc),
        }
    }

    pub(crate) fn into_text(self) -> Vec<u8> {
        let Listing { text, .. } = self;
        text
    }

    fn put(&mut self, text: &str) -> Result<(), NoMemory> {
        self.text.extend_from_slice(text.as_bytes())?;
        Ok(())
    }

    pub(crate) fn put_batches(&mut self, reader: &mut Reader) -> Result<(), NoMemory>
        ensures { reader.new.lines ≡ reader.old.lines }
    {
        for _turn in 0..100 {
            match reader.take()? {
                None => break,
                Some(batch) => self.put_batch(&batch)?,
            }
        }
        Ok(())
    }

    fn put_batch(&mut self, batch: &BatchDoc) -> Result<(), NoMemory> {
        let id = batch.batch;
        let channel = batch.channel.as_str();
        let binary = match batch.binary {
            Binary::Base64 => "BASE64",
            Binary::Hex => "HEX",
            Binary::Plain => "NONE",
        };
        let said = format!(in self.alloc; "batch {id} {channel} {binary}\n")?;
        self.put(said.as_str())?;
        for row in batch.rows.inner() {
            self.put_row(row)?;
        }
        Ok(())
    }

    fn put_row(&mut self, row: &DocRow) -> Result<(), NoMemory> {
        let event = match row.event {
            Event::Insert => "I",
            Event::Update => "U",
            Event::Delete => "D",
        };
        let table = row.table.as_str();
        let said = format!(in self.alloc; "row {event} {table}\n")?;
        self.put(said.as_str())?;
        self.put_names("keys", &row.keys)?;
        self.put_names("columns", &row.columns)?;
        self.put_values("new", &row.new)?;
        self.put_values("key", &row.key)?;
        match &row.old {
            None => self.put("old -\n"),
            Some(old) => self.put_values("old", old),
        }
    }

    fn put_names(&mut self, word: &str, names: &List<Txt>) -> Result<(), NoMemory> {
        let mut fields = List::new(self.alloc);
        for name in names.inner() {
            fields.push(Field::Text(name.twin(self.alloc)?))?;
        }
        self.put_values(word, &fields)
    }

    fn put_values(&mut self, word: &str, values: &List<Field>) -> Result<(), NoMemory> {
        let count = values.inner().len();
        let said = format!(in self.alloc; "{word} {count} ")?;
        self.put(said.as_str())?;
        put_fields(values.inner().as_slice(), &mut self.text)?;
        self.put("\n")
    }

    pub(crate) fn put_end(&mut self, reader: &mut Reader) -> Result<(), NoMemory> {
        let end = reader.finish()?;
        self.put_batches(reader)?;
        let node = match reader.node() {
            None => String::from_str(self.alloc, "node -\n")?,
            Some((id, line)) => {
                let id = id.as_str();
                format!(in self.alloc; "node {id} {line}\n")?
            }
        };
        self.put(node.as_str())?;
        let end = match end {
            End::Clean => String::from_str(self.alloc, "end clean\n")?,
            End::Broken { line, cause } => {
                let cause = cause.number();
                format!(in self.alloc; "end {line} {cause}\n")?
            }
        };
        self.put(end.as_str())
    }
}
