//! Tests of documents that are read byte by byte and cut at every place.
ghost use Rattle.std.specs.Prelude.{◌≡◌, ◌<◌, ◌^◌, length};

use crate::Reader;
use crate::tests_table::TABLE;
use sds_base::NoMemory;
use sds_types::{BatchDoc, End};
use std::alloc::Global;
use std::test::Fail;

/// What a document gives, in words: of each batch its id and number of rows, the node, the end.
#[derive(Drop)]
struct Summary {
    alloc: Global,
    text: String,
}

impl Summary {
    fn put_batches(&mut self, reader: &mut Reader) -> Result<(), NoMemory>
        ensures { reader.new.lines ≡ reader.old.lines }
    {
        for _turn in 0..100 {
            match reader.take()? {
                None => break,
                Some(batch) => self.put_batch(&batch)?,
            }
        }
        Ok(())
    }

    fn put_batch(&mut self, batch: &BatchDoc) -> Result<(), NoMemory> {
        if !self.text.is_empty() {
            self.text.push(' ')?;
        }
        let id = batch.batch;
        let rows = batch.rows.inner().len();
        let said = format!(in self.alloc; "{id}:{rows}")?;
        self.text.push_str(said.as_str())?;
        Ok(())
    }

    fn put_end(&mut self, reader: &mut Reader) -> Result<(), NoMemory> {
        let end = reader.finish()?;
        self.put_batches(reader)?;
        let node = match reader.node() {
            None => String::from_str(self.alloc, "; -; ")?,
            Some((id, line)) => {
                let id = id.as_str();
                format!(in self.alloc; "; {id} {line}; ")?
            }
        };
        self.text.push_str(node.as_str())?;
        let end = match end {
            End::Clean => String::from_str(self.alloc, "clean")?,
            End::Broken { line, cause } => {
                let cause = cause.number();
                format!(in self.alloc; "{line}.{cause}")?
            }
        };
        self.text.push_str(end.as_str())?;
        Ok(())
    }
}

/// What a document gives whose first piece has so many bytes, and every later one so many.
fn told(alloc: Global, text: &[u8], first: usize, later: usize) -> Result<String, NoMemory>
    requires { length text.now < 2 ^ 62 }
{
    let mut summary = Summary {
        alloc,
        text: String::new(alloc),
    };
    let mut reader = Reader::new(alloc);
    let (piece, mut rest) = text.split_at(first.min(text.len()));
    reader.feed(piece)?;
    summary.put_batches(&mut reader)?;
    while !rest.is_empty() {
        let (piece, others) = rest.split_at(later.max(1).min(rest.len()));
        reader.feed(piece)?;
        summary.put_batches(&mut reader)?;
        rest = others;
    }
    summary.put_end(&mut reader)?;
    let Summary { text, .. } = summary;
    Ok(text)
}

/// Whether a document gives what is due, whole, byte by byte and cut at every place.
fn gives(alloc: Global, text: &[u8], due: &str) -> Result<bool, NoMemory>
    requires { length text.now < 2 ^ 62 }
{
    if told(alloc, text, 1, 1)?.as_str() != due {
        return Ok(false);
    }
    for place in 0..text.len() + 1 {
        if told(alloc, text, place, text.len())?.as_str() != due {
            return Ok(false);
        }
    }
    Ok(true)
}

#[test]
fn directives_and_causes(rt: HostRuntime) -> Result<(), Fail> {
    for (text, due) in TABLE {
        if text.len() < 1000 {
            assert!(rt; gives(rt.alloc(), text, due)?, "{due}");
        }
    }
    Ok(())
}
