// An answer as plain numbers, laid out as C lays them out: the refusal's number and place, both 0 where nothing is refused, and
// the figures, all 0 in a refusal. No refusal has number 0 (specs/RefusalLaws.antt).
ghost use Rattle.std.specs.Prelude.{◌≡◌, ◌≤◌, IfOk};
ghost use Rattle.rewrite.specs.Rewritten.{most_bytes};
ghost use Rattle.answers.specs.Numbers.{table_numbers, litres_numbers, height_numbers, converted_numbers};

use convert::Converted;
use measure::dip_height::DipHeight;
use measure::volume::Volume;
use refusal::Refusal;
use rewrite::rewritten::MOST_BYTES;
use table::make::{Made, NumberedRefusal};

// C has no `Result`, no diameter and no volume: these structs are those of include/milechime.h, field by field.
#[repr(C)]
#[derive(Clone, Copy)]
pub struct TableNumbers {
    pub refusal: u32,
    pub place: u32,
    pub d1: u32,
    pub d2: u32,
    pub rows: u32,
}

#[repr(C)]
#[derive(Clone, Copy)]
pub struct LitresNumbers {
    pub refusal: u32,
    pub place: u32,
    pub volume: u32,
}

#[repr(C)]
#[derive(Clone, Copy)]
pub struct HeightNumbers {
    pub refusal: u32,
    pub place: u32,
    pub height: u32,
}

// A converted file: the first `length` bytes; behind them stands 0.
// C gets it by value and nothing is allocated, so there is room for the longest, with a length beside it.
#[repr(C)]
#[derive(Clone, Copy)]
pub struct ConvertedNumbers {
    pub refusal: u32,
    pub place: u32,
    pub length: u32,
    pub file: [u8; MOST_BYTES],
}

pub fn table_numbers(answer: Result<Made, NumberedRefusal>) -> TableNumbers
    ensures { result ≡ table_numbers answer }
{
    match answer {
        Ok(made) => TableNumbers {
            refusal: 0,
            place: 0,
            d1: made.d1.units(),
            d2: made.d2.units(),
            rows: made.rows,
        },
        Err(r) => TableNumbers {
            refusal: r.number,
            place: r.place,
            d1: 0,
            d2: 0,
            rows: 0,
        },
    }
}

// Apart from `height_numbers`, since C has a struct for each, whose figure has a name of its own.
pub fn litres_numbers(answer: Result<Volume, Refusal>) -> LitresNumbers
    ensures { result ≡ litres_numbers answer }
{
    match answer {
        Ok(volume) => LitresNumbers {
            refusal: 0,
            place: 0,
            volume: volume.units(),
        },
        Err(r) => LitresNumbers {
            refusal: r.number,
            place: r.place,
            volume: 0,
        },
    }
}

pub fn height_numbers(answer: Result<DipHeight, Refusal>) -> HeightNumbers
    ensures { result ≡ height_numbers answer }
{
    match answer {
        Ok(height) => HeightNumbers {
            refusal: 0,
            place: 0,
            height: height.units(),
        },
        Err(r) => HeightNumbers {
            refusal: r.number,
            place: r.place,
            height: 0,
        },
    }
}

pub fn converted_numbers(answer: Result<Converted, Refusal>) -> ConvertedNumbers
    requires { IfOk answer (λ c. c.length ≤ most_bytes) }
    ensures { result ≡ converted_numbers answer }
{
    match answer {
        Ok(converted) => {
            let file = converted.file;
            ConvertedNumbers {
                refusal: 0,
                place: 0,
                length: converted.length as u32,
                file,
            }
        }
        Err(r) => ConvertedNumbers {
            refusal: r.number,
            place: r.place,
            length: 0,
            file: [0u8; MOST_BYTES],
        },
    }
}
