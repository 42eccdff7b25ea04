// The texts of a table's columns, and a table as a whole.
use crate::tests::expect_in;
use std::test::Fail;

/// The second column of a table.
const TEXTS: &str = r#"
a INTEGER | ok
a DECIMAL(0) | ok
a DECIMAL(9) | ok
a DECIMAL(10) | 8 table[6]
a DECIMAL(09) | 8 table[6]
a DECIMAL(+1) | 8 table[6]
a DECIMAL(-1) | 8 table[6]
a DECIMAL() | 8 table[6]
a DECIMAL( 1) | 8 table[6]
a DECIMAL (1) | 8 table[6]
a DECIMAL(1 | 8 table[6]
a DECIMAL | 8 table[6]
a DECIMAL(1.0) | 8 table[6]
a DECIMAL(2,1) | 8 table[6]
a DECIMAL(4294967297) | 8 table[6]
a DECIMAL(99999999999999999999) | 8 table[6]
a VARCHAR(1) | ok
a VARCHAR(2000) | ok
a VARCHAR(0) | 8 table[6]
a VARCHAR(01) | 8 table[6]
a VARCHAR(2001) | 8 table[6]
a VARCHAR | 8 table[6]
a VARCHAR() | 8 table[6]
a VARCHAR(x) | 8 table[6]
a TIMESTAMP | ok
a TIMESTAMP(3) | 8 table[6]
a VARBINARY(1) | ok
a VARBINARY(4000) | ok
a VARBINARY(0) | 8 table[6]
a VARBINARY(4001) | 8 table[6]
a VARBINARY | 8 table[6]
a INTEGER(4) | 8 table[6]
a INTEGERS | 8 table[6]
a integer | 8 table[6]
a Integer | 8 table[6]
a BOOLEAN | 8 table[6]
a VARCHAR(4)KEY | 8 table[6]
a | 8 table[6]
a  | 8 table[6]
 | 8 table[6]
INTEGER | 8 table[6]
 a INTEGER | 8 table[6]
a  INTEGER | 8 table[6]
a INTEGER  | 8 table[6]
a.b INTEGER | 8 table[6]
ä INTEGER | 8 table[6]
"a" INTEGER | 8 table[6]
a-_9 INTEGER | ok
INTEGER INTEGER | ok
a234567890b234567890c234567890d234567890e234567890 INTEGER | ok
a234567890b234567890c234567890d234567890e234567890f INTEGER | 8 table[6]
a INTEGER NOT NULL | ok
a INTEGER KEY | ok
a INTEGER REF item | ok
a INTEGER NOT NULL KEY | ok
a INTEGER NOT NULL REF item | ok
a INTEGER KEY REF item | ok
a INTEGER NOT NULL KEY REF item | ok
a INTEGER KEY NOT NULL | 8 table[6]
a INTEGER REF item KEY | 8 table[6]
a INTEGER REF item NOT NULL | 8 table[6]
a INTEGER NOT NULL NOT NULL | 8 table[6]
a INTEGER KEY KEY | 8 table[6]
a INTEGER REF item REF item | 8 table[6]
a INTEGER NULL | 8 table[6]
a INTEGER not null | 8 table[6]
a INTEGER key | 8 table[6]
a INTEGER ref item | 8 table[6]
a INTEGER NOT  NULL | 8 table[6]
a INTEGER  KEY | 8 table[6]
a INTEGER REF  item | 8 table[6]
a INTEGER REF | 8 table[6]
a INTEGER REF  | 8 table[6]
a INTEGER REF item  | 8 table[6]
a INTEGER REF Item | 8 table[6]
a INTEGER REF nix | 8 table[6]
a INTEGER REF late | 8 table[6]
a INTEGER REF here | ok
a VARCHAR(20) REF here | 8 table[6]
a VARCHAR(20) REF item | 8 table[6]
a DECIMAL(0) REF item | 8 table[6]
a VARCHAR(20) REF name | ok
a VARCHAR(21) REF name | 8 table[6]
a VARBINARY(20) REF name | 8 table[6]
a INTEGER REF name | 8 table[6]
a DECIMAL(2) REF price | ok
a DECIMAL(1) REF price | 8 table[6]
a TIMESTAMP REF moment | ok
a VARBINARY(20) REF photo | ok
a VARBINARY(19) REF photo | 8 table[6]
a INTEGER REF both | 8 table[6]
a VARCHAR(20) REF both | 8 table[6]
id INTEGER | 8 table[6]
id VARCHAR(20) NOT NULL | 8 table[6]
ID INTEGER | ok
"#;

/// A table `here` with a key and one more column, after tables with keys of each kind and one with two keys.
const BESIDE: &str = r#"version = 1
table = [
 {id="item", columns=["id INTEGER KEY", "name VARCHAR(20)"]},
 {id="name", columns=["number INTEGER", "id VARCHAR(20) KEY"]},
 {id="price", columns=["id DECIMAL(2) KEY"]},
 {id="moment", columns=["id TIMESTAMP KEY"]},
 {id="photo", columns=["id VARBINARY(20) KEY"]},
 {id="both", columns=["id INTEGER KEY", "name VARCHAR(20) KEY"]},
 {id="here", columns=["id INTEGER KEY", '<>']},
 {id="late", columns=["id INTEGER KEY"]}]
"#;

const ALONE: &str = r#"version = 1
table = [{id="t", columns=<>}]
"#;

/// The columns of the table.
const WHOLE: &str = r#"
["id INTEGER KEY"] | ok
[] | 8 table[0]
["id INTEGER"] | 8 table[0]
["id INTEGER NOT NULL"] | 8 table[0]
["a INTEGER", "b INTEGER KEY", "c TIMESTAMP KEY"] | ok
["a INTEGER KEY", "b INTEGER", "a TIMESTAMP"] | 8 table[0]
["a INTEGER KEY", "a INTEGER KEY"] | 8 table[0]
["up INTEGER REF t", "id INTEGER KEY"] | ok
["id INTEGER KEY REF t"] | ok
["up INTEGER REF t", "id VARCHAR(4) KEY"] | 8 table[0]
["up INTEGER REF t", "a INTEGER KEY", "b INTEGER KEY"] | 8 table[0]
["up INTEGER REF u", "id INTEGER KEY"]}, {id="u", columns=["id INTEGER KEY"] | 8 table[0]
["id INTEGER KEY"]}, {id="u", columns=["up INTEGER REF t", "id INTEGER KEY"] | ok
["a VARCHAR(2000) KEY", "b VARCHAR(2000)"] | ok
["a VARCHAR(2000) KEY", "b VARCHAR(2000)", "c VARBINARY(1)"] | 8 table[0]
["a VARCHAR(2000) KEY", "b VARCHAR(1995)", "c INTEGER"] | ok
["a VARCHAR(2000) KEY", "b VARCHAR(1996)", "c INTEGER"] | 8 table[0]
["a VARCHAR(2000) KEY", "b VARBINARY(4000)", "c VARBINARY(3979)", "d DECIMAL(9)"] | ok
["a VARCHAR(2000) KEY", "b VARBINARY(4000)", "c VARBINARY(3980)", "d DECIMAL(9)"] | 8 table[0]
["a VARCHAR(2000) KEY", "b VARBINARY(4000)", "c VARBINARY(3971)", "d TIMESTAMP"] | ok
["a VARCHAR(2000) KEY", "b VARBINARY(4000)", "c VARBINARY(3972)", "d TIMESTAMP"] | 8 table[0]
"#;

#[test]
fn texts_of_columns_are_judged(rt: HostRuntime) -> Result<(), Fail> {
    expect_in(&rt, rt.alloc(), BESIDE, TEXTS)?;
    Ok(())
}

#[test]
fn tables_are_judged_as_a_whole(rt: HostRuntime) -> Result<(), Fail> {
    expect_in(&rt, rt.alloc(), ALONE, WHOLE)?;
    Ok(())
}
