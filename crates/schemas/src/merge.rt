ghost use Rattle.std.specs.Prelude.{◌≡◌, length, take};
ghost use Rattle.names.specs.Refusals.{AnswersOr, oversize_over};
ghost use Rattle.schemas.specs.Merges.{merged};
ghost use Rattle.schemas.specs.Schemas.{fields_of, dependencies_of};

use crate::dfschema::DFSchema;
use names::error::Refusal;

impl DFSchema {
    /// The other schema's columns after these, but for those that are there already; the dependencies stay.
    pub fn merge(&mut self, other_schema: &DFSchema) -> Result<(), Refusal>
        ensures answer { AnswersOr result (oversize_over 64 (merged (fields_of self.old) (fields_of other_schema.now))) (λ _. (fields_of self.new ≡ merged (fields_of self.old) (fields_of other_schema.now)) × (dependencies_of self.new ≡ dependencies_of self.old)) (self.new ≡ self.old) }
        ensures first_columns_stay { take (length (fields_of self.old)) (fields_of self.new) ≡ fields_of self.old }
    {
        let mut fields = self.fields;
        // a `for` loop, which stops at the first field that has no room
        for field in other_schema.fields() {
            if !self.has_column(&field.column) {
                fields.push(*field)?;
            }
        }
        self.fields = fields;
        Ok(())
    }
}
