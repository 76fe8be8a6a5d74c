// W-203: turns a drawn picture clockwise by a quarter, a half or three quarters.
ghost use Rattle.std.specs.Prelude.{◌≡◌, length};
ghost use Rattle.refusals.specs.Refusals.{number_or_0};
ghost use Rattle.turning.specs.Turn.{turned_size, turned, turning_picture};
ghost use Rattle.turning.specs.Quarters.{quarters, NamesTurn};

use crate::picture::Picture;
use crate::{block, mirror};
use refusals::Refused;

// A turn, clockwise.
#[derive(Clone, Copy, Debug, PartialEq, Eq)]
enum Turn {
    Quarter,
    Half,
    ThreeQuarters,
}

// The turn by so many quarters.
impl TryFrom<u32> for Turn {
    type Error = Refused;

    ghost try_from_gives = { NamesTurn };

    fn try_from(n: u32) -> Result<Turn, Refused> {
        match n {
            1 => Ok(Turn::Quarter),
            2 => Ok(Turn::Half),
            3 => Ok(Turn::ThreeQuarters),
            _ => Err(Refused::OutOfRange),
        }
    }
}

// How many bytes the turned picture has.
fn turned_size(turn: Turn, picture: Picture<'_>) -> usize
    ensures { result ≡ turned_size (quarters turn) picture.entry.width picture.entry.height }
{
    match turn {
        Turn::Half => picture.height * picture.row_size(),
        Turn::Quarter | Turn::ThreeQuarters => picture.width * picture.column_size(),
    }
}

// Turns a picture into just as many bytes.
fn turn_into(turn: Turn, picture: Picture<'_>, out: &mut [u8])
    requires { length out.old ≡ turned_size (quarters turn) picture.width picture.height }
    ensures { out.new ≡ turned (quarters turn) picture.entry.width picture.entry.height picture.entry.bytes.now }
{
    match turn {
        Turn::Quarter => block::quarter_turn(picture, out, true),
        Turn::Half => mirror::half_turn(picture, out),
        Turn::ThreeQuarters => block::quarter_turn(picture, out, false),
    }
}

// Turns a picture into the first bytes of the output.
pub fn turn_picture(
    picture: &[u8],
    out: &mut [u8],
    width: u32,
    height: u32,
    turn: u32,
) -> Result<(), Refused>
    ensures value { number_or_0 result ≡ (turning_picture turn width height picture.now out.old).answer }
    ensures out_after { out.new ≡ (turning_picture turn width height picture.now out.old).bytes }
{
    let turn = Turn::try_from(turn)?;
    let picture = Picture::new(picture, width, height)?;
    let size = turned_size(turn, picture);
    if out.len() < size {
        return Err(Refused::OutputShort);
    }
    turn_into(turn, picture, &mut out[..size]);
    Ok(())
}
