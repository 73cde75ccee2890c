//! A picture laid out.

ghost use Rattle.std.specs.Prelude.{IfOk};
ghost use Rattle.tp_story_drawing.specs.Drawn as drawn;

use crate::drawings::{Call, Drawing, Life, Mark, Run, Step};
use crate::scales::Scale;
use crate::svg::{Length, Rectangle, Svg};
use std::alloc::{AllocError, Global};
use tp_record::entries::Did;

/// Where the plot begins, in pixels from the left and from the top.
const LEFT: u64 = 110;

const TOP: u64 = 56;

/// How high a lane is, and how far the next one stands below it.
const LANE: u64 = 16;

const PITCH: u64 = 20;

/// How high a caller's step is that is no submission.
const SHORT: u64 = 5;

/// How high the lane of the queue is.
const QUEUE: u64 = 60;

/// How many lanes of workers, and of callers, are drawn.
const LANES: usize = 40;

/// How many ticks are drawn.
const TICKS: usize = 60;

/// How wide a bar is, in hundredths of a pixel, that has its task's number in it.
const LABELLED: u64 = 3_000;

/// How wide a letter of a mark's words is at most, in hundredths of a pixel.
const LETTER: u64 = 700;

/// How far the upper row of marks' words stands above the lower one.
const ROW: u64 = 12;

/// How much room the axis takes.
const AXIS: u64 = 16;

/// How much room is left at the right edge.
const MARGIN: u64 = 30;

/// What becomes of tasks, with the words of the legend.
const FATES: [(&str, &str); 8] = [
    ("run", "run"),
    ("caller", "run by its submitter"),
    ("cancelled", "cancelled"),
    ("rejected", "rejected"),
    ("discarded", "discarded"),
    ("handedback", "handed back"),
    ("removed", "removed"),
    ("open", "open"),
];

/// The class of a task's bar: its fate, or that it has none.
fn class_of(drawing: &Drawing, task: u32) -> &'static str {
    match drawing.tables().tasks.get(task as usize) {
        Some(row) => match row.fate() {
            Some(fate) => fate.name(),
            None => "open",
        },
        None => "open",
    }
}

/// How wide a caller's step of this class is. A bar with an outline is wider, so that its own colour shows.
fn width_of(class: &str) -> Length {
    match class {
        "cancelled" => Length(300),
        _ => Length(200),
    }
}

/// The class of a number within a bar of this class, which is read well on its colour.
fn ink_of(class: &str) -> &'static str {
    match class {
        "caller" | "cancelled" | "discarded" => "inside ink",
        "open" => "name",
        _ => "inside",
    }
}

/// A lane more for this slot, where it has none and there is room.
fn add_lane(lanes: &mut Vec<usize>, slot: usize) -> Result<(), AllocError> {
    if lanes.len() < LANES && !lanes.contains(&slot) {
        lanes.push(slot)?;
    }
    Ok(())
}

/// The slots that have a lane.
fn slots_of(alloc: Global, runs: &[Run], lives: &[Life]) -> Result<Vec<usize>, AllocError> {
    let mut lanes = Vec::new(alloc);
    for life in lives {
        add_lane(&mut lanes, life.slot)?;
    }
    for run in runs {
        add_lane(&mut lanes, run.slot)?;
    }
    lanes.sort()?;
    Ok(lanes)
}

/// The callers that have a lane.
fn callers_of(alloc: Global, calls: &[Call]) -> Result<Vec<u32>, AllocError> {
    let mut lanes = Vec::new(alloc);
    for call in calls {
        if lanes.len() < LANES && !lanes.contains(&call.by) {
            lanes.push(call.by)?;
        }
    }
    lanes.sort()?;
    Ok(lanes)
}

/// In how many layers the steps of a caller are drawn.
const LAYERS: u8 = 3;

/// In which layer a step is drawn: rejections are last, so that no other step covers them.
fn layer_of(step: Step) -> u8 {
    match step {
        Step::Submission(_) => 0,
        Step::Other => 1,
        Step::Rejection => 2,
    }
}

/// The class of a mark's line.
fn mark_class(did: Did) -> &'static str {
    match did {
        Did::Tick(_) => "tick",
        _ => "mark",
    }
}

/// Whether the words of a mark stand above the lanes, and not in its title alone.
fn has_words(did: Did) -> bool {
    match did {
        Did::Shutdown | Did::Stop(_) | Did::Core(..) | Did::Maximum(_) => true,
        _ => false,
    }
}

/// What concerns the whole pool, in words.
fn mark_name(alloc: Global, did: Did) -> Result<String, AllocError> {
    match did {
        Did::Core(core, _) => format!(in alloc; "core {core}"),
        Did::Maximum(maximum) => format!(in alloc; "max {maximum}"),
        Did::Keep(keep) => format!(in alloc; "keep {keep}"),
        Did::Tick(moment) => format!(in alloc; "moment {moment}"),
        Did::Shutdown => String::from_str(alloc, "shutdown"),
        Did::Stop(_) => String::from_str(alloc, "stop"),
        Did::CoreTimeout(_) => String::from_str(alloc, "core timeout"),
        Did::Tidy => String::from_str(alloc, "tidy"),
        _ => String::from_str(alloc, "ended"),
    }
}

/// A picture that is being drawn.
#[derive(Drop)]
struct Canvas<'a> {
    alloc: Global,
    drawing: &'a Drawing,
    scale: Scale,
    svg: Svg,
    /// Where the next lane begins.
    top: Length,
    /// Where the words of marks end in the lower row.
    lower: Length,
    /// Where they end in the upper row.
    upper: Length,
}

/// How much of a pixel's column some runs take, and the last of them.
#[derive(Clone, Copy, Debug, PartialEq, Eq)]
struct Shade {
    busy: u64,
    runs: u64,
}

impl Canvas<'_> {
    /// The name and the ground of a lane of this height.
    fn lane(&mut self, name: &str, height: Length) -> Result<(), AllocError> {
        let middle = self.top.and(Length(height.0 / 2)).and(Length::pixels(4));
        self.svg.words(Length::pixels(8), middle, "name", name)?;
        self.svg.rectangle(Rectangle {
            x: self.scale.left,
            y: self.top,
            width: self.scale.width(),
            height,
            class: "lane",
            density: 100,
            title: name,
        })
    }

    /// Goes on below a lane of this height.
    fn below(&mut self, height: Length) {
        self.top = self.top.and(height).and(Length::pixels(PITCH - LANE));
    }

    /// When a run ends in the picture.
    fn end_of(&self, run: &Run) -> u64 {
        run.to.unwrap_or(self.scale.last)
    }

    /// What is told where the pointer rests on a run.
    fn title_of(&self, run: &Run) -> Result<String, AllocError> {
        let Run {
            slot,
            task,
            from,
            ..
        } = *run;
        let unit = if self.drawing.window.by_ticks {
            "moment"
        } else {
            "entry"
        };
        let fate = class_of(self.drawing, task);
        match run.to {
            Some(to) => {
                format!(in self.alloc; "t{task} runs on w{slot} from {unit} {from} to {to}: {fate}")
            }
            None => format!(in self.alloc; "t{task} runs on w{slot} from {unit} {from} on"),
        }
    }

    /// A run as a bar of its own.
    fn bar(&mut self, run: &Run) -> Result<(), AllocError> {
        let title = self.title_of(run)?;
        let x = self.scale.at(run.from);
        let width = self.scale.at(self.end_of(run)).without(x).0.max(100);
        let class = class_of(self.drawing, run.task);
        self.svg.rectangle(Rectangle {
            x,
            y: self.top,
            width: Length(width),
            height: Length::pixels(LANE),
            class,
            density: 100,
            title: title.as_str(),
        })?;
        if width < LABELLED {
            return Ok(());
        }
        let task = run.task;
        let number = format!(in self.alloc; "t{task}")?;
        let x = x.and(Length::pixels(3));
        let y = self.top.and(Length::pixels(12));
        self.svg.words(x, y, ink_of(class), number.as_str())
    }

    /// Whether a run is too short for a bar of its own.
    fn is_short(&self, run: &Run) -> bool {
        let width = self
            .scale
            .at(self.end_of(run))
            .without(self.scale.at(run.from));
        self.scale.merged() > 1 && width.0 < 100
    }

    /// The shades of the columns of a slot's lane, where its runs are too short for bars.
    fn shades_of(&self, slot: usize) -> Result<Vec<Shade>, AllocError> {
        let none = Shade { busy: 0, runs: 0 };
        let columns = self.scale.column(self.scale.last).saturating_add(1);
        let mut shades = vec![in self.alloc; none; columns]?;
        for run in &self.drawing.runs {
            if run.slot == slot && self.is_short(run) {
                let at = self.scale.column(run.from);
                if at < shades.len() {
                    let busy = self.end_of(run).saturating_sub(run.from).max(1);
                    shades[at].busy = shades[at].busy.saturating_add(busy);
                    shades[at].runs = shades[at].runs.saturating_add(1);
                }
            }
        }
        Ok(shades)
    }

    /// A column of merged runs.
    fn shade(&mut self, column: u64, shade: Shade) -> Result<(), AllocError> {
        let Shade { busy, runs } = shade;
        let density = (busy.saturating_mul(100) / self.scale.merged()).clamp(15, 99);
        let title = format!(in self.alloc; "{runs} runs, merged")?;
        self.svg.rectangle(Rectangle {
            x: self.scale.left.and(Length::pixels(column)),
            y: self.top,
            width: Length::pixels(1),
            height: Length::pixels(LANE),
            class: "mixed",
            density,
            title: title.as_str(),
        })
    }

    /// The time in which a slot has a worker, as the ground of its runs.
    fn life(&mut self, life: &Life) -> Result<(), AllocError> {
        let slot = life.slot;
        let title = match life.to {
            Some(to) => format!(in self.alloc; "the worker of w{slot} leaves at {to}")?,
            None => format!(in self.alloc; "w{slot} has a worker")?,
        };
        let x = self.scale.at(life.from.unwrap_or(self.scale.first));
        let end = self.scale.at(life.to.unwrap_or(self.scale.last));
        self.svg.rectangle(Rectangle {
            x,
            y: self.top,
            width: end.without(x),
            height: Length::pixels(LANE),
            class: "life",
            density: 100,
            title: title.as_str(),
        })
    }

    /// The times in which a slot has a worker. One that came and left before all that is drawn has none; one that only runs has all.
    fn lives(&mut self, slot: usize) -> Result<(), AllocError> {
        let drawing = self.drawing;
        let mut is_known = false;
        for life in &drawing.lives {
            if life.slot == slot {
                is_known = true;
                self.life(life)?;
            }
        }
        if is_known {
            return Ok(());
        }
        self.life(&Life {
            slot,
            from: None,
            to: None,
        })
    }

    /// The lane of a slot.
    fn slot(&mut self, slot: usize) -> Result<(), AllocError> {
        let name = format!(in self.alloc; "w{slot}")?;
        self.lane(name.as_str(), Length::pixels(LANE))?;
        self.lives(slot)?;
        if self.scale.merged() > 1 {
            let shades = self.shades_of(slot)?;
            let mut column = 0u64;
            for shade in &shades {
                if shade.runs > 0 {
                    self.shade(column, *shade)?;
                }
                column = column.saturating_add(1);
            }
        }
        let drawing = self.drawing;
        for run in &drawing.runs {
            if run.slot == slot && !self.is_short(run) {
                self.bar(run)?;
            }
        }
        self.below(Length::pixels(LANE));
        Ok(())
    }

    /// The longest queue in the picture.
    fn deepest(&self) -> u64 {
        let mut most = 0usize;
        for depth in &self.drawing.depths {
            most = most.max(depth.tasks);
        }
        most as u64
    }

    /// The queue as it was so long from one time to another.
    fn depth(&mut self, from: u64, to: u64, tasks: u64, most: u64) -> Result<(), AllocError> {
        let x = self.scale.at(from);
        let width = self.scale.at(to).without(x);
        if tasks == 0 || width.0 == 0 {
            return Ok(());
        }
        let height = Length(tasks.saturating_mul(QUEUE * 100) / most.max(1));
        let title = format!(in self.alloc; "{tasks} queued from {from} to {to}")?;
        self.svg.rectangle(Rectangle {
            x,
            y: self.top.and(Length::pixels(QUEUE)).without(height),
            width,
            height,
            class: "depth",
            density: 100,
            title: title.as_str(),
        })
    }

    /// The lane of the queue: how many tasks were in it, the most of each column where columns are merged.
    fn queue(&mut self) -> Result<(), AllocError> {
        let most = self.deepest();
        let name = format!(in self.alloc; "queue, to {most}")?;
        self.lane(name.as_str(), Length::pixels(QUEUE))?;
        let step = self.scale.merged();
        let mut from = self.scale.first;
        let mut tasks = 0u64;
        let drawing = self.drawing;
        for depth in &drawing.depths {
            if depth.time >= from.saturating_add(step) {
                self.depth(from, depth.time, tasks, most)?;
                from = depth.time;
                tasks = depth.tasks as u64;
            } else {
                tasks = if step > 1 {
                    tasks.max(depth.tasks as u64)
                } else {
                    depth.tasks as u64
                };
            }
        }
        self.depth(from, self.scale.last, tasks, most)?;
        self.below(Length::pixels(QUEUE));
        Ok(())
    }

    /// A caller's step: a submission is long and has the colour of its task's fate, another step is short.
    fn call(&mut self, call: &Call) -> Result<(), AllocError> {
        let number = call.number;
        let (class, height, title) = match call.step {
            Step::Submission(task) => {
                let fate = class_of(self.drawing, task);
                let title = format!(in self.alloc; "submits t{task} at entry {number}: {fate}")?;
                (fate, LANE, title)
            }
            Step::Rejection => {
                let title = format!(in self.alloc; "is rejected at entry {number}")?;
                ("rejected", SHORT, title)
            }
            Step::Other => ("call", SHORT, format!(in self.alloc; "entry {number}")?),
        };
        self.svg.rectangle(Rectangle {
            x: self.scale.at(call.time),
            y: self.top.and(Length::pixels(LANE.saturating_sub(height))),
            width: width_of(class),
            height: Length::pixels(height),
            class,
            density: 100,
            title: title.as_str(),
        })
    }

    /// The steps of one sort in the lane of a caller. Where columns are merged, one of them is drawn in a column.
    fn steps(&mut self, by: u32, layer: u8) -> Result<(), AllocError> {
        let drawing = self.drawing;
        let mut last: Option<usize> = None;
        for call in &drawing.calls {
            let here = Some(self.scale.column(call.time));
            let is_new = self.scale.merged() == 1 || here != last;
            if call.by == by && layer_of(call.step) == layer && is_new {
                self.call(call)?;
                last = here;
            }
        }
        Ok(())
    }

    /// The lane of a caller.
    fn caller(&mut self, by: u32) -> Result<(), AllocError> {
        let name = format!(in self.alloc; "pass {by}")?;
        self.lane(name.as_str(), Length::pixels(LANE))?;
        for layer in 0u8..LAYERS {
            self.steps(by, layer)?;
        }
        self.below(Length::pixels(LANE));
        Ok(())
    }

    /// In which row the words of a mark have room between these places, and how far that is above the lanes; None where they have none.
    fn row_for(&mut self, start: Length, end: Length) -> Option<Length> {
        if self.lower.0 <= start.0 {
            self.lower = end;
            return Some(Length::pixels(TOP - 6));
        }
        if self.upper.0 <= start.0 {
            self.upper = end;
            return Some(Length::pixels(TOP - 6 - ROW));
        }
        None
    }

    /// The words of a mark at this place, where they cover no others. Near the right edge they end there.
    fn mark_words(&mut self, x: Length, words: &str) -> Result<(), AllocError> {
        let width = Length((words.len() as u64).saturating_mul(LETTER));
        let right = self.scale.left.and(self.scale.width());
        let is_near = right.without(x).0 < width.0;
        let (start, class) = if is_near {
            (x.without(width), "name end")
        } else {
            (x, "name")
        };
        match self.row_for(start, start.and(width)) {
            Some(y) => self.svg.words(x, y, class, words),
            None => Ok(()),
        }
    }

    /// What concerns the whole pool, as a line through all lanes.
    fn mark(&mut self, mark: &Mark) -> Result<(), AllocError> {
        let number = mark.number;
        let words = mark_name(self.alloc, mark.did)?;
        let words = words.as_str();
        let title = format!(in self.alloc; "{words} at entry {number}")?;
        let x = self.scale.at(mark.time);
        let top = Length::pixels(TOP - 6);
        let bottom = self.top;
        self.svg
            .upright(x, top, bottom, mark_class(mark.did), title.as_str())?;
        if has_words(mark.did) {
            self.mark_words(x, words)?;
        }
        Ok(())
    }

    /// All marks; the ticks only where they are few.
    fn marks(&mut self) -> Result<(), AllocError> {
        let drawing = self.drawing;
        let has_ticks = drawing.marks.len() <= TICKS;
        for mark in &drawing.marks {
            let is_tick = matches!(mark.did, Did::Tick(_));
            if has_ticks || !is_tick {
                self.mark(mark)?;
            }
        }
        Ok(())
    }

    /// The axis below all lanes, which has a number here and there, and a line through the lanes at each.
    fn axis(&mut self, bottom: Length) -> Result<(), AllocError> {
        let Scale { first, last, .. } = self.scale;
        let step = self.scale.step();
        let start = first.saturating_add(step.saturating_sub(1)) / step;
        let y = bottom.and(Length::pixels(12));
        for turn in 0..=last / step {
            let number = start.saturating_add(turn).saturating_mul(step);
            if number > last {
                return Ok(());
            }
            let words = format!(in self.alloc; "{number}")?;
            let words = words.as_str();
            let x = self.scale.at(number);
            self.svg
                .upright(x, Length::pixels(TOP), bottom, "rule", words)?;
            self.svg.words(x, y, "axis", words)?;
        }
        Ok(())
    }

    /// The legend.
    fn legend(&mut self) -> Result<(), AllocError> {
        let mut x = Length::pixels(LEFT);
        let y = self.top.and(Length::pixels(14));
        for (class, words) in FATES {
            self.svg.rectangle(Rectangle {
                x,
                y,
                width: Length::pixels(12),
                height: Length::pixels(12),
                class,
                density: 100,
                title: words,
            })?;
            let beside = x.and(Length::pixels(17));
            self.svg
                .words(beside, y.and(Length::pixels(10)), "legend", words)?;
            x = beside.and(Length::pixels(
                (words.len() as u64).saturating_mul(6).saturating_add(20),
            ));
        }
        Ok(())
    }

    /// The line above all lanes: what is drawn, and what is merged or left out.
    fn head(&mut self, left_out: bool) -> Result<(), AllocError> {
        let Scale { first, last, .. } = self.scale;
        let unit = if self.drawing.window.by_ticks {
            "moments"
        } else {
            "entries"
        };
        let merged = self.scale.merged();
        let note = if merged > 1 {
            format!(in self.alloc;
                "; a pixel stands for {merged}, and shorter runs are merged into shades"
            )?
        } else {
            String::new(self.alloc)
        };
        let note = note.as_str();
        let more = if left_out {
            "; further workers or callers are left out"
        } else {
            ""
        };
        let words = format!(in self.alloc; "{unit} {first} to {last}{note}{more}")?;
        self.svg.words(
            Length::pixels(8),
            Length::pixels(16),
            "legend",
            words.as_str(),
        )
    }
}

/// How high a picture is with so many lanes beside that of the queue.
fn height_of(lanes: u64) -> Length {
    bottom_of(lanes).and(Length::pixels(AXIS + 40))
}

/// Where the lanes end where there are so many beside that of the queue.
fn bottom_of(lanes: u64) -> Length {
    let rows = lanes.saturating_mul(PITCH);
    Length::pixels(rows.saturating_add(TOP + QUEUE + PITCH - LANE))
}

/// The picture of what was gathered.
pub fn picture_of(alloc: Global, drawing: &Drawing) -> Result<Vec<u8>, AllocError>
    ensures { IfOk result (λ text. drawn.IsPicture text.items) }
{
    let scale = Scale {
        first: drawing.first.unwrap_or(0),
        last: drawing.last,
        left: Length::pixels(LEFT),
    };
    let slots = slots_of(alloc, &drawing.runs, &drawing.lives)?;
    let callers = callers_of(alloc, &drawing.calls)?;
    let lanes = (slots.len() as u64).saturating_add(callers.len() as u64);
    let width = scale.left.and(scale.width());
    let svg = Svg::new(
        String::new(alloc),
        width.and(Length::pixels(MARGIN)),
        height_of(lanes),
        "a record of a thread pool",
    )?;
    let mut canvas = Canvas {
        alloc,
        drawing,
        scale,
        svg,
        top: Length::pixels(TOP),
        lower: Length::pixels(0),
        upper: Length::pixels(0),
    };
    canvas.head(slots.len() >= LANES || callers.len() >= LANES)?;
    canvas.axis(bottom_of(lanes))?;
    for slot in &slots {
        canvas.slot(*slot)?;
    }
    canvas.queue()?;
    for by in &callers {
        canvas.caller(*by)?;
    }
    canvas.marks()?;
    canvas.below(Length::pixels(AXIS));
    canvas.legend()?;
    canvas.svg.finish(alloc)
}
