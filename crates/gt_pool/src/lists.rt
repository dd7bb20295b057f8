use gt_list::ListOf;

/// What each worker owns.
pub type Kits<T> = ListOf<T>;

/// What the work on each index gave, in the order of the indices.
pub type Pieces<T> = ListOf<T>;
