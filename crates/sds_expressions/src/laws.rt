//! What holds of all expressions.
ghost use Rattle.std.specs.Prelude.{◌≡◌, ◌↔◌, ◌∷◌, ℕ, ℤ, List, Some, Result, Ok, All};
ghost use Rattle.sds_types.specs.declared.column_test.ColumnTest.{ColumnTest};
ghost use Rattle.sds_types.specs.declared.lookup.Lookup.{Lookup};
ghost use Rattle.sds_types.specs.declared.subselect.Condition.{Condition};
ghost use Rattle.sds_types.specs.declared.subselect.Subselect.{Subselect};
ghost use Rattle.sds_types.specs.declared.transform_column.MapPair.{MapPair};
ghost use Rattle.sds_types.specs.declared.transform_column.NodeWord.{NodeWord};
ghost use Rattle.sds_types.specs.declared.transform_column.Substring.{Substring};
ghost use Rattle.sds_expressions.specs.BadPlaces.{ReadsAs};
ghost use Rattle.sds_expressions.specs.ColumnForm.{IsColumnForm};
ghost use Rattle.sds_expressions.specs.ColumnRouter.{tests_of};
ghost use Rattle.sds_expressions.specs.Computed.{left_of, substr_of, value_map_of, variable_of, multiplier_of};
ghost use Rattle.sds_expressions.specs.ComputedForm.{IsLeftForm, IsSubstrForm, IsValueMapForm, IsVariableForm, IsAdditiveForm};
ghost use Rattle.sds_expressions.specs.LookupForm.{HasNames, IsLookupForm};
ghost use Rattle.sds_expressions.specs.LookupRouter.{lookup_read};
ghost use Rattle.sds_expressions.specs.Printed.{IsTest, IsChoice, text_of_tests, text_of_lookup, text_of_choice};
ghost use Rattle.sds_expressions.specs.SubselectForm.{IsSubselectForm};
ghost use Rattle.sds_expressions.specs.SubselectRouter.{subselect_of};

/// The law that the deciders of expressions read by the forms: a text reads as a value exactly
/// where it has the form and says that value, and else it is refused at the first character from
/// which no continuation has the form.
pub fn expressions_read_by_their_form()
    ensures column { (text : List ℕ) (read : Result (List ColumnTest) ℕ) → (tests_of text ≡ read)
        ↔ ReadsAs IsColumnForm text read }
    ensures lookup { (text : List ℕ) (read : Result Lookup ℕ) → (lookup_read text ≡ read)
        ↔ ReadsAs IsLookupForm text read }
    ensures subselect { (text : List ℕ) (read : Result Subselect ℕ) → (subselect_of text ≡ read)
        ↔ ReadsAs IsSubselectForm text read }
{}

/// The law that each name in an expression is a name.
pub fn expressions_have_names()
    ensures column { (text : List ℕ) (tests : List ColumnTest) → IsColumnForm text tests
        → All IsTest tests }
    ensures lookup { (text : List ℕ) (lookup : Lookup) → IsLookupForm text lookup
        → HasNames lookup }
    ensures subselect { (text : List ℕ) (choice : Subselect) → IsSubselectForm text choice
        → IsChoice choice }
{}

/// The law that what is printed of an expression with such names, and with a test or a condition,
/// reads back.
pub fn printed_expressions_read_back()
    ensures column { (test : ColumnTest) (tests : List ColumnTest) → All IsTest (test ∷ tests)
        → tests_of (text_of_tests (test ∷ tests)) ≡ Ok (test ∷ tests) }
    ensures lookup { (lookup : Lookup) → HasNames lookup → lookup_read (text_of_lookup lookup)
        ≡ Ok lookup }
    ensures subselect { (choice : Subselect) (condition : Condition) (conditions : List Condition)
        → choice.conditions ≡ condition ∷ conditions → IsChoice choice
        → subselect_of (text_of_choice choice) ≡ Ok choice }
{}

/// The law that the expression of a transform's column reads exactly where it has its form, and as
/// what it says.
pub fn column_expressions_read_by_their_form()
    ensures left { (text : List ℕ) (n : ℕ) → (left_of text ≡ Some n) ↔ IsLeftForm text n }
    ensures substr { (text : List ℕ) (piece : Substring) → (substr_of text ≡ Some piece)
        ↔ IsSubstrForm text piece }
    ensures value_map { (text : List ℕ) (pairs : List MapPair) → (value_map_of text ≡ Some pairs)
        ↔ IsValueMapForm text pairs }
    ensures variable { (text : List ℕ) (node : NodeWord) → (variable_of text ≡ Some node)
        ↔ IsVariableForm text node }
    ensures additive { (text : List ℕ) (factor : ℤ) → (multiplier_of text ≡ Some factor)
        ↔ IsAdditiveForm text factor }
{}
