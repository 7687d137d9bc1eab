//! The elements of SVG 1.1 (W3C, Scalable Vector Graphics) that a drawing is made of.
ghost use Rattle.std.specs.Prelude.{Some};
ghost use Rattle.bm_drawing.specs.Shapes as spec;

use std::fmt;

/// A line from one point to another.
#[derive(Clone, Copy)]
pub(crate) struct Line {
    pub(crate) x1: u128,
    pub(crate) y1: u128,
    pub(crate) x2: u128,
    pub(crate) y2: u128,
}

#[tactic(auto, unfolding(crate::specs::Shapes::line))]
impl fmt::Display for Line {
    ghost output = { λ l. Some (spec.line l.x1 l.y1 l.x2 l.y2) };

    fn fmt<W: fmt::Write>(&self, f: &mut fmt::Formatter<W>) -> fmt::Result {
        let Line { x1, y1, x2, y2 } = *self;
        write!(f, "<line x1='{x1}' y1='{y1}' x2='{x2}' y2='{y2}'/>")
    }
}

/// The beginning of a text at a point.
#[derive(Clone, Copy)]
pub(crate) struct TextAt {
    pub(crate) x: u128,
    pub(crate) y: u128,
}

#[tactic(auto, unfolding(crate::specs::Shapes::text_at))]
impl fmt::Display for TextAt {
    ghost output = { λ t. Some (spec.text_at t.x t.y) };

    fn fmt<W: fmt::Write>(&self, f: &mut fmt::Formatter<W>) -> fmt::Result {
        let TextAt { x, y } = *self;
        write!(f, "<text x='{x}' y='{y}' stroke='none'>")
    }
}

/// The beginning of a circle.
#[derive(Clone, Copy)]
struct Circle {
    x: u128,
    y: u128,
}

#[tactic(auto, unfolding(crate::specs::Shapes::circle))]
impl fmt::Display for Circle {
    ghost output = { λ c. Some (spec.circle c.x c.y) };

    fn fmt<W: fmt::Write>(&self, f: &mut fmt::Formatter<W>) -> fmt::Result {
        let Circle { x, y } = *self;
        write!(f, "<circle cx='{x}' cy='{y}'")
    }
}

/// The mark of a break or of a refusal.
#[derive(Clone, Copy)]
pub(crate) struct Mark {
    pub(crate) broken: bool,
    pub(crate) x: u128,
    pub(crate) y: u128,
}

#[tactic(auto, unfolding(crate::specs::Shapes::mark))]
impl fmt::Display for Mark {
    ghost output = { λ m. Some (spec.mark m.broken m.x m.y) };

    fn fmt<W: fmt::Write>(&self, f: &mut fmt::Formatter<W>) -> fmt::Result {
        let Mark { broken, x, y } = *self;
        let circle = Circle { x, y };
        if broken {
            write!(
                f,
                "{circle} r='4' fill='#e0001b' stroke='#ffffff' stroke-width='1'/>"
            )
        } else {
            write!(
                f,
                "{circle} r='3' fill='#ffffff' stroke='#e0001b' stroke-width='2'/>"
            )
        }
    }
}

/// An arrow to the right, from a point.
#[derive(Clone, Copy)]
pub(crate) struct Arrow {
    pub(crate) x: u128,
    pub(crate) y: u128,
}

#[tactic(auto, unfolding(crate::specs::Shapes::arrow))]
impl fmt::Display for Arrow {
    ghost output = { λ a. Some (spec.arrow a.x a.y) };

    fn fmt<W: fmt::Write>(&self, f: &mut fmt::Formatter<W>) -> fmt::Result {
        let Arrow { x, y } = *self;
        write!(f, "<path d='M{x} {y}v-4l9 4l-9 4z' stroke='none'/>")
    }
}

/// The beginning of a group whose lines have this colour.
#[derive(Clone, Copy)]
pub(crate) struct Group(pub(crate) &'static str);

#[tactic(auto, unfolding(crate::specs::Shapes::group))]
impl fmt::Display for Group {
    ghost output = { λ g. Some (spec.group g.0.now) };

    fn fmt<W: fmt::Write>(&self, f: &mut fmt::Formatter<W>) -> fmt::Result {
        let colour = self.0;
        write!(f, "<g stroke='{colour}'>")
    }
}

/// The same, with arrows of this colour.
#[derive(Clone, Copy)]
pub(crate) struct Coloured(pub(crate) &'static str);

#[tactic(auto, unfolding(crate::specs::Shapes::coloured))]
impl fmt::Display for Coloured {
    ghost output = { λ g. Some (spec.coloured g.0.now) };

    fn fmt<W: fmt::Write>(&self, f: &mut fmt::Formatter<W>) -> fmt::Result {
        let colour = self.0;
        write!(f, "<g stroke='{colour}' fill='{colour}'>")
    }
}

/// The beginning of a group of white dashes, which are drawn over lines.
#[derive(Clone, Copy)]
pub(crate) struct Dashes;

#[tactic(auto, unfolding(crate::specs::Shapes::dashes))]
impl fmt::Display for Dashes {
    ghost output = { λ _. Some spec.dashes };

    fn fmt<W: fmt::Write>(&self, f: &mut fmt::Formatter<W>) -> fmt::Result {
        write!(
            f,
            "<g stroke='#ffffff' stroke-width='2' stroke-dasharray='3 3' stroke-linecap='butt'>"
        )
    }
}

/// The beginning of a group of black dashes and bold words.
#[derive(Clone, Copy)]
pub(crate) struct Dashed;

#[tactic(auto, unfolding(crate::specs::Shapes::dashed))]
impl fmt::Display for Dashed {
    ghost output = { λ _. Some spec.dashed };

    fn fmt<W: fmt::Write>(&self, f: &mut fmt::Formatter<W>) -> fmt::Result {
        write!(
            f,
            "<g stroke='#000000' stroke-width='1' stroke-dasharray='4 2' font-weight='bold'>"
        )
    }
}
