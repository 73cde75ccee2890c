//! A writer of SVG, which escapes what it prints.

ghost use Rattle.std.specs.Prelude.{IfOk};
ghost use Rattle.tp_story_drawing.specs.Drawn as drawn;

use std::alloc::{AllocError, Global};
use std::fmt;

/// A text within an element: what would be markup there is escaped.
#[derive(Clone, Copy)]
pub struct Escaped<'a>(pub &'a str);

impl fmt::Display for Escaped<'_> {
    fn fmt<W: fmt::Write>(&self, f: &mut fmt::Formatter<W>) -> fmt::Result {
        for letter in self.0.chars() {
            match letter {
                '<' => f.write_str("&lt;")?,
                '>' => f.write_str("&gt;")?,
                '&' => f.write_str("&amp;")?,
                '"' => f.write_str("&quot;")?,
                letter if (letter as u32) < 32 => f.write_str(" ")?,
                letter => f.write_char(letter)?,
            }
        }
        Ok(())
    }
}

/// A length or a place in hundredths of a pixel, as `12.5`.
#[derive(Clone, Copy, Debug, PartialEq, Eq)]
pub struct Length(pub u64);

impl Length {
    /// So many pixels.
    pub fn pixels(count: u64) -> Length {
        Length(count.saturating_mul(100))
    }

    /// Both together.
    pub fn and(self, other: Length) -> Length {
        Length(self.0.saturating_add(other.0))
    }

    /// What is left without the other one; none where that is longer.
    pub fn without(self, other: Length) -> Length {
        Length(self.0.saturating_sub(other.0))
    }
}

impl fmt::Display for Length {
    fn fmt<W: fmt::Write>(&self, f: &mut fmt::Formatter<W>) -> fmt::Result {
        let whole = self.0 / 100;
        let part = self.0 % 100;
        if part == 0 {
            write!(f, "{whole}")
        } else {
            write!(f, "{whole}.{part:02}")
        }
    }
}

/// A rectangle of a class, with a title that is shown where the pointer rests on it.
#[derive(Clone, Copy)]
pub struct Rectangle<'a> {
    /// Its left edge.
    pub x: Length,
    /// Its upper edge.
    pub y: Length,
    /// How wide it is.
    pub width: Length,
    /// How high it is.
    pub height: Length,
    /// Its class, which has its colour.
    pub class: &'a str,
    /// How dense it is, in hundredths.
    pub density: u64,
    /// Its title.
    pub title: &'a str,
}

/// How a picture's text begins.
const HEAD: &str = "<svg xmlns=\"http://www.w3.org/2000/svg\"";

/// What stands in a picture's text behind its head.
#[derive(Drop)]
pub struct Svg {
    text: String,
}

/// The text of a picture in which this stands behind its head.
fn headed(alloc: Global, behind: &str) -> Result<Vec<u8>, AllocError>
    ensures { IfOk result (λ text. drawn.IsPicture text.items) }
{
    let mut text = Vec::from_slice(alloc, HEAD.as_bytes())?;
    text.extend_from_slice(behind.as_bytes())?;
    Ok(text)
}

const STYLE: &str = "<style>
rect{shape-rendering:crispEdges}
text{font:11px sans-serif;fill:#767676}
.name{font-weight:bold}.end{text-anchor:end}
.inside{font-size:10px;fill:#fff}.ink{fill:#000}
.rule{stroke:#767676;stroke-opacity:.35;stroke-width:1}
.axis{text-anchor:middle;font-size:10px}
.lane{fill:#767676;fill-opacity:.06}.life{fill:#767676;fill-opacity:.16}
.run{fill:#0072b2}.caller{fill:#56b4e9}.rejected{fill:#d55e00}.discarded{fill:#e69f00}
.handedback{fill:#cc79a7}.removed{fill:#009e73}.cancelled{fill:#f0e442;stroke:#767676;stroke-width:.5}
.open{fill:#767676;fill-opacity:.35;stroke:#767676;stroke-width:1;stroke-dasharray:2 2}
.mixed{fill:#0072b2}.depth{fill:#767676;fill-opacity:.6}
.call{fill:#767676}.mark{stroke:#d55e00;stroke-width:1.5}.tick{stroke:#767676;stroke-width:1;stroke-dasharray:1 3}
</style>
";

impl Svg {
    /// A picture of this size, with the classes of all that is drawn.
    pub fn new(
        mut text: String,
        width: Length,
        height: Length,
        title: &str,
    ) -> Result<Svg, AllocError> {
        let title = Escaped(title);
        write!(
            &mut text,
            " width=\"{width}\" height=\"{height}\" viewBox=\"0 0 {width} {height}\" role=\"img\">\n<title>{title}</title>\n"
        )?;
        text.push_str(STYLE)?;
        Ok(Svg { text })
    }

    /// A rectangle.
    pub fn rectangle(&mut self, shape: Rectangle<'_>) -> Result<(), AllocError> {
        let Rectangle {
            x,
            y,
            width,
            height,
            class,
            density,
            title,
        } = shape;
        let title = Escaped(title);
        let opacity = Length(density.min(100));
        let text = &mut self.text;
        if density >= 100 {
            write!(
                text,
                "<rect class=\"{class}\" x=\"{x}\" y=\"{y}\" width=\"{width}\" height=\"{height}\"><title>{title}</title></rect>\n"
            )
        } else {
            write!(
                text,
                "<rect class=\"{class}\" x=\"{x}\" y=\"{y}\" width=\"{width}\" height=\"{height}\" fill-opacity=\"{opacity}\"><title>{title}</title></rect>\n"
            )
        }
    }

    /// Words that begin at a place.
    pub fn words(
        &mut self,
        x: Length,
        y: Length,
        class: &str,
        words: &str,
    ) -> Result<(), AllocError> {
        let words = Escaped(words);
        write!(
            &mut self.text,
            "<text class=\"{class}\" x=\"{x}\" y=\"{y}\">{words}</text>\n"
        )
    }

    /// A line from the top to the bottom.
    pub fn upright(
        &mut self,
        x: Length,
        top: Length,
        bottom: Length,
        class: &str,
        title: &str,
    ) -> Result<(), AllocError> {
        let title = Escaped(title);
        write!(
            &mut self.text,
            "<line class=\"{class}\" x1=\"{x}\" y1=\"{top}\" x2=\"{x}\" y2=\"{bottom}\"><title>{title}</title></line>\n"
        )
    }

    /// The whole text.
    pub fn finish(mut self, alloc: Global) -> Result<Vec<u8>, AllocError>
        ensures { IfOk result (λ text. drawn.IsPicture text.items) }
    {
        self.text.push_str("</svg>\n")?;
        headed(alloc, self.text.as_str())
    }
}
