//! The joins of a view that its coordinator collects.

ghost use Rattle.std.specs.Prelude.{◌≡◌, None, Some};
ghost use Rattle.harp_types.specs.Trio.{with_value};
ghost use Rattle.view_form.specs.Choice.{chosen_at, collected};

use crate::choosing::choose;
use crate::join::JoinInfo;
use crate::plan::Plan;
use harp_types::{ServerId, Trio, ViewNo};
use std::marker::Model;

/// What a coordinator has of the joins of its view, its own from the first on. Joins after the
/// first that allows a choice are ignored.
#[derive(Drop)]
pub struct Collector {
    view: ViewNo,
    joins: Trio<Option<JoinInfo>>,
}

impl Model for Collector {
    ghost use Rattle.view_form.specs.Choice.{Collected};

    ghost Value = { Collected };

    ghost view = { λ c. record { view = c.view; joins = c.joins } };
}

impl Collector {
    /// The coordinator's own join of its view.
    pub fn new(view: ViewNo, own: JoinInfo) -> Collector
        ensures { result ≡ record {
          view = view;
          joins = with_value (record { zero = None; one = None; two = None }) view.coordinator
              (Some own);
        } }
    {
        let mut collector = Collector {
            view,
            joins: Trio {
                zero: None,
                one: None,
                two: None,
            },
        };
        collector.put(view.coordinator(), own);
        collector
    }

    /// Takes a join of a server. Some exactly at the first join after which the joins allow a
    /// choice.
    pub fn join(&mut self, from: ServerId, info: JoinInfo) -> Option<Plan>
        ensures joins { self.new ≡ collected self.old from info }
        ensures plan { result ≡ chosen_at self.old from info }
    {
        if choose(&self.joins).is_some() {
            return None;
        }
        self.put(from, info);
        choose(&self.joins)
    }

    /// Keeps a join.
    fn put(&mut self, from: ServerId, info: JoinInfo)
        ensures { self.new ≡ record self.old {
          joins = with_value self.old.joins from
              (Some info);
        } }
    {
        match from {
            ServerId::Zero => self.joins.zero = Some(info),
            ServerId::One => self.joins.one = Some(info),
            ServerId::Two => self.joins.two = Some(info),
        }
    }

    /// The view.
    pub fn view(&self) -> ViewNo
        ensures { result ≡ self.now.view }
    {
        self.view
    }

    /// The joins so far.
    pub fn joins(&self) -> &Trio<Option<JoinInfo>>
        ensures { result.now ≡ self.now.joins }
    {
        &self.joins
    }
}
