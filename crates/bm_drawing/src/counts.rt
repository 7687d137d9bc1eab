//! The rows that count the connections that aren't drawn.
ghost use Rattle.std.specs.Prelude.{◌≡◌, ◌++◌, ◌<◌, ◌^◌, Some, OnOk, string_bytes};
ghost use Rattle.bm_drawing.specs.Drawing as spec;

use crate::plot::{Plot, count_height};
use crate::shapes::TextAt;
use std::alloc::AllocError;
use std::fmt;

/// A grey row.
#[derive(Clone, Copy)]
struct Band(u128);

#[tactic(auto, unfolding(crate::specs::Drawing::band))]
impl fmt::Display for Band {
    ghost output = { λ b. Some (spec.band b.0) };

    fn fmt<W: fmt::Write>(&self, f: &mut fmt::Formatter<W>) -> fmt::Result {
        let y = self.0;
        write!(
            f,
            "<rect x='40' y='{y}' width='1000' height='14' fill='#eeeeee'/>"
        )
    }
}

/// How many touched connections aren't drawn, if any.
#[tactic(auto, unfolding(crate::specs::Drawing::cut_row))]
fn write_cut(text: &mut String, y: u128, n: u64) -> Result<(), AllocError>
    requires { y < 2 ^ 103 }
    ensures { OnOk result (string_bytes text.new ≡ string_bytes text.old ++ spec.cut_row y n) }
{
    if n == 0 {
        return Ok(());
    }
    let band = Band(y);
    let start = TextAt { x: 46, y: y + 11 };
    write!(text, "{band}{start}{n}")?;
    text.push_str(
        " more connections that were broken, refused, forwarded or open at a change</text>\n",
    )?;
    Ok(())
}

/// How many connections no change touched, if any that aren't drawn.
#[tactic(auto, unfolding(crate::specs::Drawing::folded_row))]
fn write_folded(text: &mut String, y: u128, n: u64) -> Result<(), AllocError>
    requires { y < 2 ^ 103 }
    ensures { OnOk result (string_bytes text.new ≡ string_bytes text.old ++ spec.folded_row y n) }
{
    if n == 0 {
        return Ok(());
    }
    let band = Band(y);
    let start = TextAt { x: 46, y: y + 11 };
    write!(text, "{band}{start}{n}")?;
    text.push_str(" connections that no change touched</text>\n")?;
    Ok(())
}

/// How many connections aren't drawn.
#[tactic(auto, unfolding(crate::specs::Drawing::counts))]
pub(crate) fn write_counts(text: &mut String, plot: Plot) -> Result<(), AllocError>
    ensures { OnOk result (string_bytes text.new ≡ string_bytes text.old ++ spec.counts plot) }
{
    let y = plot.row(plot.rows);
    write_cut(text, y, plot.cut)?;
    write_folded(text, y + count_height(plot.cut), plot.folded)
}
