ghost use Rattle.std.specs.Prelude.{◌≡◌, ◌++◌, IfOk, OnOk};
ghost use Rattle.std.specs.Fmt.{decimal};
ghost use Rattle.perm_engine.specs.meaning.generation.Generated.{big_row, big_rows, comma, generated, queries, small_rows, tables};

use perm_values::{Bytes, NoMemory};
use std::alloc::Global;
use std::marker::Model;

/// The text of a script as it grows, seen as its bytes.
#[derive(Drop)]
struct Draft {
    alloc: Global,
    bytes: Bytes,
}

impl Model for Draft {
    ghost use Rattle.std.specs.Prelude.{ℕ, List};

    ghost Value = { List ℕ };

    ghost view = { λ d. d.bytes };
}

impl Draft {
    fn push(&mut self, more: &[u8]) -> Result<(), NoMemory>
        ensures { OnOk result (self.new ≡ self.old ++ more.now) }
    {
        self.bytes.add(more)
    }

    fn push_number(&mut self, number: u64) -> Result<(), NoMemory>
        ensures { OnOk result (self.new ≡ self.old ++ decimal number) }
    {
        self.push(number.to_string(self.alloc)?.as_bytes())
    }

    fn push_comma(&mut self, place: u64) -> Result<(), NoMemory>
        ensures { OnOk result (self.new ≡ self.old ++ comma place) }
    {
        if place == 0 { Ok(()) } else { self.push(b", ") }
    }

    fn push_tables(&mut self) -> Result<(), NoMemory>
        ensures { OnOk result (self.new ≡ self.old ++ tables) }
    {
        self.push(b"create table big ( k integer , g integer , t text ) ; ")?;
        self.push(b"create table small ( g integer , name text ) ; ")?;
        Ok(())
    }

    fn push_big_row(&mut self, number: u64) -> Result<(), NoMemory>
        ensures { OnOk result (self.new ≡ self.old ++ big_row number) }
    {
        self.push(b"( ")?;
        self.push_number(number)?;
        self.push(b" , ")?;
        self.push_number(number % 10)?;
        self.push(b" , 't")?;
        self.push_number(number % 100)?;
        self.push(b"' ) ")
    }

    fn push_big_rows(&mut self, rows: u64) -> Result<(), NoMemory>
        ensures { OnOk result (self.new ≡ self.old ++ big_rows rows) }
    {
        for place in 0..rows {
            self.push_comma(place)?;
            self.push_big_row(place + 1)?;
        }
        Ok(())
    }

    fn push_small_rows(&mut self) -> Result<(), NoMemory>
        ensures { OnOk result (self.new ≡ self.old ++ small_rows) }
    {
        self.push(b"( 0 , 'n0' ) , ( 1 , 'n1' ) , ( 2 , 'n2' ) , ( 3 , 'n3' ) , ( 4 , 'n4' ) , ")?;
        self.push(b"( 5 , 'n5' ) , ( 6 , 'n6' ) , ( 7 , 'n7' ) , ( 8 , 'n8' ) , ( 9 , 'n9' ) ")
    }

    fn push_queries(&mut self) -> Result<(), NoMemory>
        ensures { OnOk result (self.new ≡ self.old ++ queries) }
    {
        self.push(b"select count ( * ) , sum ( k ) from big ; ")?;
        self.push(
            b"select count ( * ) from ( select provenance g , count ( * ) from big group by g ) x ; ",
        )?;
        self.push(
            b"select count ( * ) from ( select provenance big . k from big join small on big . g = small . g ) x ; ",
        )?;
        self.push(b"select count ( * ) from ( select provenance k from big ")?;
        self.push(b"where g in ( select small . g from small where small . g < 3 ) ) x ")?;
        Ok(())
    }
}

/// The text of the script that is made from a number: `big` has a row for each number from 1 on, `small` one for each digit,
/// and three of the four queries ask for provenance. It fails only for want of memory.
pub fn generate(alloc: Global, rows: u32) -> Result<Bytes, NoMemory>
    ensures { IfOk result (λ text. text ≡ generated rows) }
{
    let mut draft = Draft {
        alloc,
        bytes: Bytes::new(alloc),
    };
    draft.push_tables()?;
    draft.push(b"insert into big values ")?;
    draft.push_big_rows(u64::from(rows))?;
    draft.push(b"; insert into small values ")?;
    draft.push_small_rows()?;
    draft.push(b"; ")?;
    draft.push_queries()?;
    let Draft { alloc: _, bytes } = draft;
    Ok(bytes)
}
