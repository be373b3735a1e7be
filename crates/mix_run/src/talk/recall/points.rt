//! The points that a talk recalls.

ghost use Rattle.std.specs.Prelude.{◌≡◌, ◌≢◌, IfOk, OnOk};
ghost use Rattle.mix_run.specs.Points.{with_points};
ghost use Rattle.mix_run.specs.Recall.{recalled_asked};
ghost use Rattle.mix_run.specs.declared.talk.asked.Point.TheVariants as point;

use crate::talk::asked::{Point, with_point_if};
use crate::talk::points::{pieces, with_points};
use crate::talk::recall::{MOST, Recall};
use mix_machine::Place;
use mix_refused::Memory;
use mix_session::Session;

impl Recall {
    /// What the points make of it.
    pub(crate) fn with_points(&self, session: &Session, typed: &[u8]) -> Result<Vec<u8>, Memory>
        ensures { IfOk result (λ line. line.items ≡ with_points session.now self.now.points typed.now) }
    {
        with_points(self.alloc, session, &self.points, typed)
    }

    /// The points, of each a line, as `loc LOOP`.
    pub(crate) fn points(&self) -> &[u8]
        ensures { result.now ≡ self.now.points }
    {
        &self.points
    }

    /// What is asked of the points is done: one that a run cannot wait for with the others is not set, and a person is told so.
    pub(crate) fn change_points(
        &mut self,
        session: &Session,
        typed: &[u8],
        asked: Point,
        note: &mut Vec<u8>,
    ) -> Result<(), Memory>
        requires { asked ≢ point.Other }
        ensures { OnOk result (self.new ≡ recalled_asked asked session.now typed.now self.old) }
    {
        match asked {
            Point::Set(place) => {
                match with_point_if(self.alloc, session, typed, place, &self.watch, &self.points)? {
                    Some(points) => self.points = points,
                    None => {
                        note.extend_from_slice(MOST)?;
                        return Ok(());
                    }
                }
            }
            Point::Clear(place) => {
                self.points = pieces(self.alloc, session, &Some(place), &self.points)?
            }
            Point::ClearAll => self.points.clear(),
            Point::Other => unreachable!(),
        }
        note.extend_from_slice(b"ok\n")?;
        Ok(())
    }
}
