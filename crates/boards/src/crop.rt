// The crop: a part of any board, a crop too, which it holds.
ghost use Rattle.std.specs.Prelude.{◌≡◌, ℕ};
ghost use Rattle.refusal.specs.Told.{told};
ghost use Rattle.boards.specs.Meaning.{zone_answer, report_answer, reported, kept_answer};
ghost use Rattle.boards.specs.Crop.{Cropping, crop_meaning, Lower, numbered, zone_or0};

use crate::board::Board;
use crate::window::Window;
use refusal::{Reason, Refusal};

// A part of the board that it holds; its reports are that board's.
#[derive(Drop)]
pub struct Crop<B> {
    lower: B,
    window: Window,
}

// A board that could not be cropped, and why.
#[derive(Drop)]
pub struct RefusedCrop<B> {
    pub lower: B,
    pub refusal: Refusal,
}

// Why the board could not be cropped.
impl<B: Drop> From<RefusedCrop<B>> for Refusal {
    ghost from_gives = { λ refused refusal. refusal ≡ refused.refusal };

    fn from(refused: RefusedCrop<B>) -> Refusal {
        refused.refusal
    }
}

impl<B: Board> Crop<B> {
    // The part of `lower` that the window shows.
    pub fn new(lower: B, window: Window) -> Result<Crop<B>, RefusedCrop<B>>
        ensures { Cropping B.meaning lower window result }
    {
        if window.lies_in(lower.columns(), lower.rows()) {
            Ok(Crop { lower, window })
        } else {
            Err(RefusedCrop {
                lower,
                refusal: Reason::CropOutside.into(),
            })
        }
    }
}

impl<B> Crop<B> {
    // The board that this is a part of.
    pub fn into_lower(self) -> B
        ensures { result ≡ self.lower }
    {
        let Crop { lower, window: _ } = self;
        lower
    }
}

// The zone of that number, or 0 where the board has none.
fn zone_or_0<B: Board>(board: &mut B, number: Option<i32>) -> i32
    ensures value { (p : ℕ) → number ≡ numbered p → result ≡ zone_or0 (B.meaning board.old) p }
    ensures same { B.meaning board.new ≡ B.meaning board.old }
{
    // After a call of a closure that holds the board, nothing is proved of what the board means.
    match number {
        Some(i) => board.zone(i).unwrap_or(0),
        None => 0,
    }
}

impl<B: Board> Board for Crop<B> {
    ghost meaning = { crop_meaning B.meaning };

    fn columns(&self) -> u32 {
        self.window.columns
    }

    fn rows(&self) -> u32 {
        self.window.rows
    }

    fn zone(&mut self, i: i32) -> Result<i32, Refusal>
        ensures answer { told result ≡ zone_answer (crop_meaning B.meaning self.old) i }
        ensures same { crop_meaning B.meaning self.new ≡ crop_meaning B.meaning self.old }
        ensures lower { Lower B.meaning self.old self.new (λ m. m) }
    {
        let k = self.window.index(i)?;
        let place = self.window.place(self.lower.columns(), k);
        Ok(zone_or_0(&mut self.lower, place))
    }

    fn report(&mut self, v: i32) -> Result<(), Refusal>
        ensures answer { told result ≡ report_answer (crop_meaning B.meaning self.old) }
        ensures after { crop_meaning B.meaning self.new ≡ reported (crop_meaning B.meaning self.old) v }
        ensures lower { Lower B.meaning self.old self.new (λ m. reported m v) }
    {
        self.lower.report(v)
    }

    fn kept(&mut self, k: usize) -> Option<i32>
        ensures answer { result ≡ kept_answer (crop_meaning B.meaning self.old) k }
        ensures same { crop_meaning B.meaning self.new ≡ crop_meaning B.meaning self.old }
        ensures lower { Lower B.meaning self.old self.new (λ m. m) }
    {
        self.lower.kept(k)
    }
}
