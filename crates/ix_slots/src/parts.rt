use ix_model::Rules;

/// Want of memory for the slots of a plan, with what the plan was to be made of.
#[derive(Debug, Drop)]
pub struct Unplanned {
    pub rules: Rules,
    pub text: Vec<char>,
}

/// What a plan was made of.
#[derive(Debug, Drop)]
pub struct Parts {
    pub rules: Rules,
    pub text: Vec<char>,
}
