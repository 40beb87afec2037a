ghost use Rattle.std.specs.Prelude.{Some};
ghost use Rattle.std.specs.Fmt.{DisplaysOnOk};
ghost use Rattle.jobtext.specs.Texts.{field_text, ok_line, route_line, reply_text};

use std::fmt;

/// A field after a blank: a number, or `-` for none.
#[derive(Clone, Copy, PartialEq, Eq, Debug)]
struct Field(Option<u32>);

impl fmt::Display for Field {
    ghost output = { λ f. Some (field_text f.0) };

    fn fmt<W: fmt::Write>(&self, f: &mut fmt::Formatter<W>) -> fmt::Result {
        match self.0 {
            Some(number) => write!(f, " {number}"),
            None => write!(f, " -"),
        }
    }
}

/// An answer line; above each, how it is written.
#[derive(Clone, Copy, PartialEq, Eq, Debug)]
pub enum Reply<'a> {
    /// no NUMBER
    No(u32),
    /// ok FIELD ..
    Fields(&'a [Option<u32>]),
    /// ok TOLL COUNT PLACE ..
    Route {
        toll: u32,
        count: u32,
        way: &'a [u16],
    },
}

impl fmt::Display for Reply<'_> {
    ghost output = { λ r. Some (reply_text r) };

    fn fmt<W: fmt::Write>(&self, f: &mut fmt::Formatter<W>) -> fmt::Result {
        match self {
            Reply::No(number) => writeln!(f, "no {number}"),
            Reply::Fields(fields) => write_fields(f, fields),
            Reply::Route { toll, count, way } => write_route(f, *toll, *count, way),
        }
    }
}

/// Writes an ok line of fields.
fn write_fields<W: fmt::Write>(f: &mut fmt::Formatter<W>, fields: &[Option<u32>]) -> fmt::Result
    ensures { DisplaysOnOk W.write_str_gives f.old result (Some (ok_line fields.now)) f.new }
{
    write!(f, "ok")?;
    for field in fields {
        write!(f, "{}", Field(*field))?;
    }
    writeln!(f)
}

/// Writes the ok line of a route: its toll, a count, and the places of its way.
fn write_route<W: fmt::Write>(
    f: &mut fmt::Formatter<W>,
    toll: u32,
    count: u32,
    way: &[u16],
) -> fmt::Result
    ensures { DisplaysOnOk W.write_str_gives f.old result (Some (route_line toll count way.now)) f.new }
{
    write!(f, "ok {toll} {count}")?;
    for place in way {
        write!(f, " {place}")?;
    }
    writeln!(f)
}
