// What a visitor's messages change.
ghost use Rattle.std.specs.Prelude.{◌≡◌, All, IfOk, IsSome, List, OnOk, Some, false};
ghost use Rattle.kernel.specs.KernelState.{IsKept, visit_of};
ghost use Rattle.kernel.specs.Sets.{AreAdmitted};
ghost use Rattle.kernel.specs.Visit.{IsDelivery, Takes, closed};
ghost use Rattle.kernel.specs.declared.pending.Pending.TheVariants as pending;
ghost use Rattle.kernel.specs.declared.state.Phase.TheVariants as phases;
ghost use Rattle.message_meaning.specs.Messages.{IsReceived};
ghost use Rattle.messages.specs.declared.message.Message.TheVariants.{Open, Set};
ghost use Rattle.messages.specs.declared.message.SetItem.{SetItem};
ghost use Rattle.visit_meaning.specs.Answer.{element_in};

use crate::answers::Delivered;
use crate::pending::{Cells, Pending};
use crate::state::setting::{
    SetFault, admitted, drop_created, keep_values, names_of, set_elements,
};
use crate::state::{KernelState, Phase};
use cell_graph::Notebook;
use frames::Frame;
use message_json::{MessageFault, read_message};
use messages::{Message, SetItems};
use py_value::{Memory, Text, Value};
use std::alloc::Global;
use ui_elements::Present;

// The message that bytes are; none where they are no message.
fn received(alloc: Global, bytes: &[u8]) -> Result<Option<Message>, Memory>
    ensures { IfOk result (λ m. IsReceived bytes.now m) }
{
    match read_message(alloc, bytes) {
        Ok(message) => Ok(Some(message)),
        Err(MessageFault::NotMessage) => Ok(None),
        Err(MessageFault::Memory) => Err(Memory),
    }
}

impl<'n> KernelState<'n> {
    /// Takes a message, whose answer is then to come, or closes the visit, where it is a close message or comes after one.
    pub fn take(&mut self, alloc: Global, bytes: &[u8]) -> Result<Delivered, Memory>
        requires kept { IsKept self.old }
        requires free { self.old.pending ≡ pending.Nothing }
        ensures kept { OnOk result (IsKept self.new) }
        ensures delivers { IfOk result
            (λ delivered. IsDelivery bytes.now (visit_of false self.old)
            (visit_of false self.new) delivered) }
        ensures newest { self.new.newest ≡ self.old.newest }
    {
        match (self.phase, received(alloc, bytes)?) {
            (Phase::Ended, _) | (_, Some(Message::Close)) => {
                self.close(alloc);
                return Ok(Delivered::Closed);
            }
            (Phase::Before, Some(Message::Open)) => self.start(),
            (Phase::On, Some(Message::Set(items))) => self.set(alloc, items)?,
            (_, Some(_)) => self.pending = Pending::Refusal(Frame::BadOrder),
            (_, None) => self.pending = Pending::Refusal(Frame::BadMessage),
        }
        Ok(Delivered::Taken)
    }

    // Ends the visit. No value is kept from then on.
    fn close(&mut self, alloc: Global)
        requires kept { IsKept self.old }
        requires free { self.old.pending ≡ pending.Nothing }
        ensures kept { IsKept self.new }
        ensures closed { visit_of false self.new ≡ closed (visit_of false self.old) }
        ensures newest { self.new.newest ≡ self.old.newest }
    {
        self.phase = Phase::Ended;
        self.present = Present::new(alloc);
    }

    // Opens the notebook: all cells are to run.
    fn start(&mut self)
        requires kept { IsKept self.old }
        requires free { self.old.pending ≡ pending.Nothing }
        requires before { self.old.phase ≡ phases.Before }
        ensures kept { IsKept self.new }
        ensures taken { Takes (Some Open) (visit_of false self.old) (visit_of false self.new) }
        ensures newest { self.new.newest ≡ self.old.newest }
    {
        let notebook: &'n Notebook = self.notebook;
        self.phase = Phase::On;
        self.pending = Pending::Results {
            cells: Cells::Lent(notebook.order()),
            taken: 0,
        };
    }

    // Sets the elements of these names, unless a name is no element's, or an element doesn't admit what is sent.
    fn set(&mut self, alloc: Global, items: SetItems) -> Result<(), Memory>
        requires kept { IsKept self.old }
        requires free { self.old.pending ≡ pending.Nothing }
        requires on { self.old.phase ≡ phases.On }
        ensures kept { OnOk result (IsKept self.new) }
        ensures taken { OnOk result
            (Takes (Some (Set items)) (visit_of false self.old) (visit_of false self.new)) }
        ensures newest { self.new.newest ≡ self.old.newest }
    {
        match admitted(alloc, &self.env, items) {
            Ok(sets) => self.keep(alloc, sets),
            Err(SetFault::Refused(why)) => {
                self.pending = Pending::Refusal(why);
                Ok(())
            }
            Err(SetFault::Memory) => Err(Memory),
        }
    }

    // Keeps values that elements admit. The elements have them as their present values, and what depends on them is to run again;
    // the values of elements that will be created anew are dropped.
    fn keep(&mut self, alloc: Global, sets: Vec<(Text, Value)>) -> Result<(), Memory>
        requires kept { IsKept self.old }
        requires free { self.old.pending ≡ pending.Nothing }
        requires on { self.old.phase ≡ phases.On }
        requires there { All (λ s. IsSome (element_in self.old.env s.0)) sets.items }
        ensures kept { OnOk result
            ((items : List SetItem) → AreAdmitted self.old.env items sets.items
            → IsKept self.new) }
        ensures taken { OnOk result
            ((items : List SetItem) → AreAdmitted self.old.env items sets.items
            → Takes (Some (Set items)) (visit_of false self.old) (visit_of false self.new)) }
        ensures newest { self.new.newest ≡ self.old.newest }
    {
        set_elements(alloc, &mut self.env, sets.as_slice())?;
        let again = self
            .notebook
            .rerun(alloc, &names_of(alloc, sets.as_slice())?)?;
        keep_values(&mut self.present, sets)?;
        drop_created(&mut self.present, self.notebook, again.items());
        self.pending = Pending::Results {
            cells: Cells::Again(again),
            taken: 0,
        };
        Ok(())
    }
}
