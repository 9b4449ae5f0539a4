//! Laws of the reading of trees, as clauses. There is no product code here.

ghost use Rattle.pj_tree.specs.ReadingLaws.{a_tree_means_what_those_it_names_let_it, laid_out_trees_are_named_once, laid_out_trees_mean_what_the_tree_did, laid_out_trees_name_later_ones, newer_trees_mean_what_they_do_by_themselves, older_trees_keep_their_meaning, other_images_keep_their_trees, trees_are_put_behind_those_of_their_image};

/// What trees mean beside others and among appended ones.
pub fn reading_laws()
    ensures a_tree_means_what_those_it_names_let_it { a_tree_means_what_those_it_names_let_it }
    ensures older_trees_keep_their_meaning { older_trees_keep_their_meaning }
    ensures newer_trees_mean_what_they_do_by_themselves { newer_trees_mean_what_they_do_by_themselves }
{}

/// What becomes of a tree that is laid out, so that each tree in it has a number.
pub fn numbering_laws()
    ensures laid_out_trees_mean_what_the_tree_did { laid_out_trees_mean_what_the_tree_did }
    ensures laid_out_trees_name_later_ones { laid_out_trees_name_later_ones }
    ensures laid_out_trees_are_named_once { laid_out_trees_are_named_once }
{}

/// Where trees stand that are put behind others.
pub fn forest_laws()
    ensures trees_are_put_behind_those_of_their_image { trees_are_put_behind_those_of_their_image }
    ensures other_images_keep_their_trees { other_images_keep_their_trees }
{}
