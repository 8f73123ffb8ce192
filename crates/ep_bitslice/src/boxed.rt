//! Forms on the heap.

ghost use Rattle.std.specs.Prelude.{◌≡◌, IfOk};

use crate::Form;
use ep_int::Memory;
use std::alloc::Global;
use std::marker::Model;

/// A form on the heap, for what mostly has none.
#[derive(Drop)]
pub struct BoxedForm {
    form: Box<Form>,
}

impl Model for BoxedForm {
    ghost use Rattle.std.specs.Prelude.{List};
    ghost use Rattle.ep_bitslice.specs.declared.segment.Segment.{Segment};

    ghost Value = { List Segment };

    ghost view = { λ b. b.form.value };
}

impl BoxedForm {
    /// The form on the heap.
    pub fn new(alloc: Global, form: Form) -> Result<BoxedForm, Memory>
        ensures { IfOk result (λ b. b ≡ form) }
    {
        match Box::new(alloc, form) {
            Ok(form) => Ok(BoxedForm { form }),
            Err(_) => Err(Memory),
        }
    }

    /// The form itself.
    pub fn form(&self) -> &Form
        ensures { result.now ≡ self.now }
    {
        &self.form
    }

    /// Another form on this heap.
    pub fn another(&self, form: Form) -> Result<BoxedForm, Memory>
        ensures { IfOk result (λ b. b ≡ form) }
    {
        BoxedForm::new(*Box::allocator(&self.form), form)
    }

    /// The same once more.
    pub fn copy(&self) -> Result<BoxedForm, Memory>
        ensures { IfOk result (λ b. b ≡ self.now) }
    {
        self.another(self.form.copy())
    }

    /// Another form in its place.
    pub fn replaced(self, form: Form) -> BoxedForm
        ensures { result ≡ form }
    {
        let mut at = self.form;
        *at = form;
        BoxedForm { form: at }
    }
}
