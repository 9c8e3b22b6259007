//! The line of a prediction.
ghost use Rattle.std.specs.Prelude.{◌≡◌, ◌++◌, OnOk, string_bytes, codes};
ghost use Rattle.std.specs.Fmt.{decimal};
ghost use Rattle.predict_lines.specs.Lines.{place_words, offset_words, prediction_line};

use std::alloc::AllocError;
use std::fmt::Write;

// Where the player is predicted, and his ammo.
fn put_place(text: &mut String, at: (i64, i64, i64)) -> Result<(), AllocError>
    ensures { OnOk result (string_bytes text.new ≡ string_bytes text.old ++ place_words at) }
{
    let (x, y, ammo) = at;
    write!(text, " {x} {y} {ammo}")
}

// How far from there he is shown, and the line's end.
fn put_offset(text: &mut String, offset: (i64, i64)) -> Result<(), AllocError>
    ensures { OnOk result (string_bytes text.new ≡ string_bytes text.old ++ offset_words offset) }
{
    let (right, down) = offset;
    writeln!(text, " {right} {down}")
}

// The name of the line.
fn put_name(text: &mut String, client: u8) -> Result<(), AllocError>
    ensures { OnOk result (string_bytes text.new ≡ string_bytes text.old ++ (codes "predict " ++ decimal client)) }
{
    write!(text, "predict {client}")
}

/// Appends the line of a prediction: where the player is predicted, his ammo, and how far from there he is shown (docs/prediction.md).
pub fn put_prediction(
    text: &mut String,
    client: u8,
    value: Option<(i64, i64, i64)>,
    offset: (i64, i64),
) -> Result<(), AllocError>
    ensures { OnOk result (string_bytes text.new ≡ string_bytes text.old ++ prediction_line client value offset) }
{
    put_name(text, client)?;
    match value {
        None => text.push_str(" -\n"),
        Some(at) => {
            put_place(text, at)?;
            put_offset(text, offset)
        }
    }
}
