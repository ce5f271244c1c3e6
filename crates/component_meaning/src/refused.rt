//! Worked rows of the definitions: texts that are refused, each with the reason and its place. Lines and columns
//! were counted by hand.

ghost use Rattle.std.specs.Prelude.{codes};
ghost use Rattle.component_meaning.specs.Worked.{RefusedAt};

use component_items::{Count, Why};

/// Refused: a token is not allowed where it stands, or is none.
pub fn unexpected_tokens()
    ensures empty { RefusedAt (codes "") Why.Unexpected 1 1 }
    ensures another_version { RefusedAt (codes "component 9") Why.Unexpected 1 11 }
    ensures leading_zero { RefusedAt (codes "component 1\nsignal a = 01") Why.BadToken 2 12 }
    ensures text_not_closed { RefusedAt (codes "component 1\n<p>\"ab") Why.BadToken 2 4 }
    ensures arrow { RefusedAt (codes "component 1\n<p a=>") Why.Unexpected 2 5 }
    ensures end_in_a_tag { RefusedAt (codes "component 1\n<p") Why.Unexpected 2 3 }
    ensures end_in_an_area { RefusedAt (codes "component 1\narea a {") Why.Unexpected 2 9 }
    ensures close_of_nothing { RefusedAt (codes "component 1\n</br>") Why.Unexpected 2 1 }
    ensures brace_of_nothing { RefusedAt (codes "component 1\n}") Why.Unexpected 2 1 }
    ensures dash_apart { RefusedAt (codes "component 1\n<my -a>") Why.Unexpected 2 5 }
{}

/// Refused: an element is not closed, or another one is.
pub fn unclosed_elements()
    ensures left_open { RefusedAt (codes "component 1\n<p>") Why.UnclosedTag 2 4 }
    ensures left_open_before_a_brace { RefusedAt (codes "component 1\n<p> }") Why.UnclosedTag 2 5 }
    ensures void_has_no_end { RefusedAt (codes "component 1\n<p><br></br></p>") Why.UnclosedTag 2 10 }
    ensures other_tag { RefusedAt (codes "component 1\n<p></q$") Why.UnclosedTag 2 6 }
    ensures other_whole_tag { RefusedAt (codes "component 1\n<p></p-1>") Why.UnclosedTag 2 6 }
    ensures before_a_great_number { RefusedAt (codes "component 1\n<p></ x-2147483649>") Why.UnclosedTag 2 7 }
    ensures not_before_a_bad_token { RefusedAt (codes "component 1\n<p></q-$") Why.BadToken 2 8 }
    ensures area_is_around { RefusedAt (codes "component 1\n<p>area a {</p>") Why.Unexpected 2 12 }
{}

/// Refused: a name is not seen.
pub fn names_not_seen()
    ensures nowhere { RefusedAt (codes "component 1\nmemo m = x") Why.UnknownName 2 10 }
    ensures its_own { RefusedAt (codes "component 1\nmemo m = m") Why.UnknownName 2 10 }
    ensures inside_an_area { RefusedAt (codes "component 1\narea a { signal x = 1 } {x}") Why.UnknownName 2 26 }
    ensures inside_an_if { RefusedAt (codes "component 1\nif 1 { memo m = 1 } {m}") Why.UnknownName 2 22 }
    ensures no_field { RefusedAt (codes "component 1\nstore s max 1 { t = 0 }\neach s { {row.u} }") Why.UnknownName 3 15 }
    ensures no_resource { RefusedAt (codes "component 1\nload l = r(1)") Why.UnknownName 2 10 }
    ensures no_store { RefusedAt (codes "component 1\neach s {}") Why.UnknownName 2 6 }
{}

/// Refused: a name is taken.
pub fn names_taken()
    ensures declared_twice { RefusedAt (codes "component 1\nsignal a = 1\nmemo a = 2") Why.NameTaken 3 6 }
    ensures in_its_own_area { RefusedAt (codes "component 1\narea a { signal a = 1 }") Why.NameTaken 2 17 }
    ensures by_a_sibling { RefusedAt (codes "component 1\narea a {} area a {}") Why.NameTaken 2 16 }
    ensures in_an_element { RefusedAt (codes "component 1\n<p>area a {}</p> signal a = 1") Why.NameTaken 2 25 }
    ensures attribute { RefusedAt (codes "component 1\n<p a a>") Why.NameTaken 2 6 }
    ensures attribute_of_parts { RefusedAt (codes "component 1\n<p a-b a-c a-b>") Why.NameTaken 2 12 }
    ensures field { RefusedAt (codes "component 1\nstore s max 1 { t = 0 t = 1 }") Why.NameTaken 2 23 }
    ensures field_named_key { RefusedAt (codes "component 1\nstore s max 1 { key = 0 }") Why.NameTaken 2 17 }
{}

/// Refused: a key of a resource is taken.
pub fn keys_taken()
    ensures number { RefusedAt (codes "component 1\nresource r after 0 { 1 => 2 1 => 3 }") Why.NameTaken 2 29 }
    ensures zero { RefusedAt (codes "component 1\nresource r after 0 { -0 => 2 0 => 3 }") Why.NameTaken 2 30 }
    ensures negated_zero { RefusedAt (codes "component 1\nresource r after 0 { 0 => 2 -0 => 3 }") Why.NameTaken 2 29 }
    ensures empty_key { RefusedAt (codes "component 1\nresource r after 0 { empty => 2 empty => 3 }") Why.NameTaken 2 33 }
    ensures text { RefusedAt (codes "component 1\nresource r after 0 { \"a\" => 2 \"a\" => 3 }") Why.NameTaken 2 31 }
{}

/// Refused: an item stands where it may not, or a name is of another kind.
pub fn wrong_places()
    ensures signal_in_an_element { RefusedAt (codes "component 1\n<p>signal a = 1</p>") Why.WrongPlace 2 4 }
    ensures memo_in_an_element { RefusedAt (codes "component 1\n<p>memo a = 1</p>") Why.WrongPlace 2 4 }
    ensures signal_in_an_if { RefusedAt (codes "component 1\nif 1 { signal a = 1 }") Why.WrongPlace 2 8 }
    ensures resource_in_an_area { RefusedAt (codes "component 1\narea a { resource") Why.WrongPlace 2 10 }
    ensures cleanup_at_the_top { RefusedAt (codes "component 1\ncleanup \"x\"") Why.WrongPlace 2 1 }
    ensures area_in_an_if { RefusedAt (codes "component 1\nif 1 { <p>area a {}</p> }") Why.WrongPlace 2 11 }
    ensures each_in_an_each { RefusedAt (codes "component 1\nstore s max 1 { t = 0 }\neach s { each s {} }") Why.WrongPlace 3 10 }
    ensures row_outside_an_each { RefusedAt (codes "component 1\n{row.f}") Why.WrongPlace 2 2 }
    ensures area_as_a_value { RefusedAt (codes "component 1\narea a {} memo m = a") Why.WrongPlace 2 20 }
    ensures signal_as_a_store { RefusedAt (codes "component 1\nsignal a = 1 each a {}") Why.WrongPlace 2 19 }
{}

/// Refused: the tags of scripts and styles.
pub fn forbidden_tags()
    ensures script { RefusedAt (codes "component 1\n<script>") Why.WrongPlace 2 2 }
    ensures style { RefusedAt (codes "component 1\n<style a>") Why.WrongPlace 2 2 }
    ensures bad_token_within { RefusedAt (codes "component 1\n<script-$") Why.BadToken 2 9 }
{}

/// Refused: a number is too great.
pub fn great_numbers()
    ensures number { RefusedAt (codes "component 1\nsignal a = 2147483648") Why.NumberRange 2 12 }
    ensures negated { RefusedAt (codes "component 1\nsignal a = -2147483649") Why.NumberRange 2 13 }
    ensures behind_after { RefusedAt (codes "component 1\nresource r after 2147483648") Why.NumberRange 2 18 }
    ensures part_of_a_tag { RefusedAt (codes "component 1\n<x-2147483648>") Why.NumberRange 2 4 }
    ensures part_of_no_whole_tag { RefusedAt (codes "component 1\n<x-2147483648-$") Why.NumberRange 2 4 }
    ensures difference { RefusedAt (codes "component 1\nmemo a = 1 - 2147483648") Why.NumberRange 2 14 }
{}

/// Refused: something is too large or too deep.
pub fn limits()
    ensures rows { RefusedAt (codes "component 1\nstore s max 4097 {") (Why.TooLarge Count.StoreRows) 2 13 }
    ensures open_elements { RefusedAt (codes "component 1\n<p><p><p><p><p><p><p><p><p><p><p><p><p><p><p><p><p><p><p><p><p><p><p><p><p><p><p><p><p><p><p><p><p>") Why.TooDeep 2 97 }
    ensures void_element_within { RefusedAt (codes "component 1\n<p><p><p><p><p><p><p><p><p><p><p><p><p><p><p><p><p><p><p><p><p><p><p><p><p><p><p><p><p><p><p><p><br>") Why.TooDeep 2 97 }
    ensures open_blocks { RefusedAt (codes "component 1\nif 1 {if 1 {if 1 {if 1 {if 1 {if 1 {if 1 {if 1 {if 1 {if 1 {if 1 {if 1 {if 1 {if 1 {if 1 {if 1 {if 1 {if 1 {if 1 {if 1 {if 1 {if 1 {if 1 {if 1 {if 1 {if 1 {if 1 {if 1 {if 1 {if 1 {if 1 {if 1 {if 1 {") Why.TooDeep 2 198 }
    ensures tokens_of_an_expression { RefusedAt (codes "component 1\nmemo m = 1+1+1+1+1+1+1+1+1+1+1+1+1+1+1+1+1+1+1+1+1+1+1+1+1+1+1+1+1+1+1+1+1+1+1+1+1+1+1+1+1+1+1+1+1+1+1+1+1+1+1+1+1+1+1+1+1+1+1+1+1+1+1+1+1+1+1+1+1+1+1+1+1+1+1+1+1+1+1+1+1+1+1+1+1+1+1+1+1+1+1+1+1+1+1+1+1+1+1+1+1+1+1+1+1+1+1+1+1+1+1+1+1+1+1+1+1+1+1+1+1+1+1+1+1+1+1+1+1") Why.TooDeep 2 266 }
{}

/// Refused: the items lay out too many nodes.
pub fn too_many_nodes()
    ensures values { RefusedAt (codes "component 1\nstore s max 4096 { t = 0 }\nsignal a = 1") (Why.TooLarge Count.Nodes) 3 13 }
    ensures rows { RefusedAt (codes "component 1\nstore s max 2049 {} each s { {row.key} {1} }") (Why.TooLarge Count.Nodes) 2 45 }
{}
